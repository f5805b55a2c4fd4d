// What is kept of a server's line and of its log.
ghost use Rattle.std.specs.Prelude.{◌≡◌, ◌<◌, IfSome, Some};
ghost use Rattle.std.specs.List.{slice_get};
ghost use Rattle.frang_base.specs.declared.limits.TheConstants.{SERVERS};
ghost use Rattle.clerk_cache.specs.Dropping.{numbers_of};
ghost use Rattle.kept_plans.specs.Kept.{IsKeptBeside};
ghost use Rattle.line_stages.specs.Oldest.{AreOldest};
ghost use Rattle.world_parties.specs.States.{IsPut};
ghost use Rattle.world_state.specs.States.{core_at};

use crate::world::World;
use frang_base::{Sector, ServerId};
use kept_plans::KeptPlan;

impl World {
    /// What a server's line under way comes to is kept. Nothing else changes.
    pub fn keep_plan(&mut self, a: ServerId, plan: KeptPlan)
        requires server { a.0 < SERVERS }
        requires plan { IsKeptBeside (core_at self.old).setting ((core_at self.old).servers a.0) (Some plan) }
        ensures core { core_at self.new ≡ core_at self.old }
        ensures put { IfSome (slice_get self.old.parties.parties a.0) (λ party. IsPut self.old.parties self.new.parties a.0 (record party { plan = Some plan })) }
        ensures rest { self.new ≡ record self.old { parties = self.new.parties } }
    {
        let mut party = self.parties.take(a);
        party.plan = Some(plan);
        self.parties.put(a, party);
    }

    /// The sectors that the oldest records of a server's log name are kept. Nothing else changes.
    pub fn keep_oldest(&mut self, a: ServerId, oldest: Vec<Sector>)
        requires server { a.0 < SERVERS }
        requires oldest { AreOldest ((core_at self.old).servers a.0).ring (numbers_of oldest.items) }
        ensures core { core_at self.new ≡ core_at self.old }
        ensures put { IfSome (slice_get self.old.parties.parties a.0) (λ party. IsPut self.old.parties self.new.parties a.0 (record party { oldest = Some oldest })) }
        ensures rest { self.new ≡ record self.old { parties = self.new.parties } }
    {
        let mut party = self.parties.take(a);
        party.oldest = Some(oldest);
        self.parties.put(a, party);
    }
}
