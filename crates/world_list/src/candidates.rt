// The sectors of which a party may issue a write, and maybe others.
ghost use Rattle.std.specs.Prelude.{◌≡◌, ℕ, IfOk, OnOk, true, false};
ghost use Rattle.core_definitions.specs.Cores.{writes};
ghost use Rattle.core_definitions.specs.WriteGuards.{may_issue};
ghost use Rattle.world_list.specs.Going.{AreStages, IsGoing, IsParty};
ghost use Rattle.world_list.specs.Issuing.{AreCandidates, server_sectors};
ghost use Rattle.world_list.specs.Wanting.{Joins, rescue_sectors};
ghost use Rattle.world_parties.specs.States.{IsRecovery, recovering_by, recovery_in, servers_at};
ghost use Rattle.world_state.specs.States.{core_at};

use crate::asked::asked;
use crate::gathering::{join_kept, join_rescues};
use frang_base::{NoMemory, ServerId};
use line_stages::Stage;
use ordered_map::OrderedMap;
use std::alloc::Global;
use world_asks::host_next_issue;
use world_parties::is_server;
use world_state::World;

// Those that the recovery of a party wants written, if any.
fn join_recovery(
    sectors: &mut OrderedMap<u64, ()>,
    world: &World,
    a: ServerId,
) -> Result<(), NoMemory>
    requires { IsParty a.0 }
    ensures joins { OnOk result (Joins (rescue_sectors (recovering_by world.now.parties a.0)) sectors.old.entries sectors.new.entries) }
    ensures core { recovery_in (recovering_by world.now.parties a.0) ≡ (servers_at world.now.parties a.0).recovery }
    ensures fits { IsRecovery world.now.parties.segments a.0 (recovering_by world.now.parties a.0) }
{
    match world.parties().recovery(a) {
        Some(demon) => join_rescues(sectors, demon),
        None => Ok(()),
    }
}

// Those of the log and the cache of a server.
fn join_server(
    sectors: &mut OrderedMap<u64, ()>,
    world: &World,
    a: ServerId,
) -> Result<(), NoMemory>
    ensures { OnOk result (Joins (server_sectors world.now a.0) sectors.old.entries sectors.new.entries) }
{
    if is_server(a) {
        join_kept(sectors, &world.parties().get(a).server)
    } else {
        Ok(())
    }
}

// Whether a party may issue no write.
fn is_idle(world: &World, stages: &[Option<Stage>], a: ServerId) -> bool
    requires going { IsGoing world.now }
    requires stages { AreStages world.now stages.now }
    requires party { IsParty a.0 }
    ensures { result ≡ true → (sector : ℕ) → may_issue (core_at world.now) a.0 sector (writes (core_at world.now) a.0) ≡ false }
{
    if is_server(a) {
        asked(world, stages, a).next_issue().is_none()
    } else {
        host_next_issue(world).is_none()
    }
}

// All that it keeps and that its recovery wants written.
fn gathered(alloc: Global, world: &World, a: ServerId) -> Result<OrderedMap<u64, ()>, NoMemory>
    requires going { IsGoing world.now }
    requires party { IsParty a.0 }
    ensures { IfOk result (λ sectors. AreCandidates world.now a.0 sectors.entries) }
{
    let mut sectors = OrderedMap::new(alloc);
    // What its type keeps is known from here on.
    let _over = world.is_over();
    join_server(&mut sectors, world, a)?;
    join_recovery(&mut sectors, world, a)?;
    // That they ascend is known from here on.
    let _count = sectors.count();
    Ok(sectors)
}

/// The candidates of a party, none where it may issue no write, so that what is cached is gone through only where it may issue one. Its one refusal is want of memory.
pub(crate) fn candidates(
    alloc: Global,
    world: &World,
    stages: &[Option<Stage>],
    a: ServerId,
) -> Result<OrderedMap<u64, ()>, NoMemory>
    requires going { IsGoing world.now }
    requires stages { AreStages world.now stages.now }
    requires party { IsParty a.0 }
    ensures { IfOk result (λ sectors. AreCandidates world.now a.0 sectors.entries) }
{
    if is_idle(world, stages, a) {
        return Ok(OrderedMap::new(alloc));
    }
    gathered(alloc, world, a)
}
