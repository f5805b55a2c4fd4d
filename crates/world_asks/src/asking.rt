// Who is asked.
ghost use Rattle.std.specs.Prelude.{◌≡◌, ◌<◌, IfSome, false, true};
ghost use Rattle.frang_base.specs.declared.limits.TheConstants.{SERVERS};
ghost use Rattle.clerk_cache.specs.Dropping.{numbers_of};
ghost use Rattle.log_slots.specs.Reading.{log_rules};
ghost use Rattle.core_definitions.specs.Writes.{lacks_room};
ghost use Rattle.line_stages.specs.Oldest.{AreOldest};
ghost use Rattle.world_asks.specs.Asking.{IsPartyOf, IsStageAt, stage_in};
ghost use Rattle.world_asks.specs.Fresh.{IsFreshAt};
ghost use Rattle.world_parties.specs.States.{oldest_of};
ghost use Rattle.world_parties.specs.declared.party.Party.{Party};

use frang_base::{Sector, ServerId};
use line_stages::{Stage, stage_of};
use std::marker::Model;
use world_parties::Party;
use world_state::World;

/// A server, 0 to 15, of a world that isn't over, with how far its line over paths has come. What is kept beside the server is up to date.
#[derive(Drop)]
pub struct Asking<'a> {
    world: &'a World,
    a: ServerId,
    stage: Option<Stage>,
}

impl<'a> Model for Asking<'a> {
    ghost use Rattle.world_asks.specs.Asking.{Asked, IsAsked};

    ghost Value = { Asked };

    ghost view = { λ asking. record { world = asking.world.now; number = asking.a.0; stage = asking.stage } };

    ghost invariant = { λ asking. IsAsked (record { world = asking.world.now; number = asking.a.0; stage = asking.stage }) };
}

// The sectors of the oldest records that are kept beside a server, none where they aren't known.
fn oldest_kept(party: &Party) -> &[Sector]
    ensures { IfSome (oldest_of party.now) (λ sectors. numbers_of result.now ≡ sectors) }
{
    match &party.oldest {
        Some(oldest) => oldest.as_slice(),
        None => &[],
    }
}

/// How far the line over paths of a server, 0 to 15, of a world has come, by what is kept beside the server, which is up to date. It takes no memory.
pub fn stage_at(world: &World, a: ServerId) -> Option<Stage>
    requires server { a.0 < SERVERS }
    requires fresh { IsFreshAt world.now a.0 }
    ensures { IsStageAt world.now a.0 result }
{
    // What its type keeps of the plan.
    let _over = world.is_over();
    let party = world.parties().get(a);
    stage_of(world.locks(), &party.server, &party.plan)
}

impl<'a> Asking<'a> {
    /// A server of a world that isn't over. Its stage is read once, which takes no memory.
    pub fn new(world: &'a World, a: ServerId) -> Asking<'a>
        requires server { a.0 < SERVERS }
        requires going { world.now.over ≡ false }
        requires fresh { IsFreshAt world.now a.0 }
        ensures world { result.world ≡ world.now }
        ensures number { result.number ≡ a.0 }
    {
        Asking::staged(world, a, stage_at(world, a))
    }

    /// The same, where its stage was read before.
    pub fn staged(world: &'a World, a: ServerId, stage: Option<Stage>) -> Asking<'a>
        requires server { a.0 < SERVERS }
        requires going { world.now.over ≡ false }
        requires fresh { IsFreshAt world.now a.0 }
        requires stage { IsStageAt world.now a.0 stage }
        ensures world { result.world ≡ world.now }
        ensures number { result.number ≡ a.0 }
    {
        // What its type keeps.
        let _over = world.is_over();
        Asking { world, a, stage }
    }

    /// The world.
    pub fn world(&self) -> &'a World
        ensures { result.now ≡ self.now.world }
    {
        self.world
    }

    /// The number of the server.
    pub fn number(&self) -> ServerId
        ensures number { result.0 ≡ self.now.number }
        ensures small { result.0 < SERVERS }
    {
        self.a
    }

    // Its stage.
    pub(crate) fn stage(&self) -> &Option<Stage>
        ensures { result.now ≡ self.now.stage }
    {
        &self.stage
    }

    // Its party, with what is known of it.
    pub(crate) fn party(&self) -> &'a Party
        ensures { IsPartyOf self.now result.now }
    {
        self.world.parties().get(self.a)
    }

    // The sectors that its oldest records name, where its line lacks room in its log.
    pub(crate) fn oldest(&self) -> &'a [Sector]
        ensures { (party : Party) → IsPartyOf self.now party → lacks_room log_rules party.server.server.ring (stage_in self.now) ≡ true → AreOldest party.server.server.ring (numbers_of result.now) }
    {
        oldest_kept(self.party())
    }
}
