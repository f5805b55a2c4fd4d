// What is made ready for a tick of the clock: Tick.
ghost use Rattle.std.specs.Prelude.{◌≡◌, ◌↔◌, IsTrue, false};
ghost use Rattle.std.specs.List.{list_all};
ghost use Rattle.std.specs.Map.{keys_of};
ghost use Rattle.core_definitions.specs.Events as core;
ghost use Rattle.core_definitions.specs.Guards.{is_by_gone};
ghost use Rattle.core_definitions.specs.WriteGuards.{is_flight};
ghost use Rattle.sector_bytes.specs.SectorMaps.{value_at};
ghost use Rattle.world_state.specs.States.{core_at};
ghost use Rattle.world_next.specs.Fresh.{IsFresh};
ghost use Rattle.world_next.specs.Over.{core_over};
ghost use Rattle.world_ready.specs.Making.{IsMade, IsQuiet};

use crate::kinds::{Made, Ready};
use frang_base::ServerId;
use frang_base::limits::LAST_TICK;
use hall_runs::Call;
use host_tree::HostTree;
use world_next::{is_one_at_gate, next_beside_flights};
use world_state::World;

// Whether all writes in flight are by servers that are stalled or dead.
fn are_all_by_gone(world: &World) -> bool
    ensures { result ≡ list_all (λ ticket. is_flight (is_by_gone (core_at world.now)) (value_at (core_at world.now).flights ticket)) (keys_of (core_at world.now).flights) }
{
    let flights = world.flights();
    for i in 0..flights.count() {
        if let Some((ticket, _)) = flights.flying_at(i) {
            if !world.is_by_gone(ticket) {
                return false;
            }
        }
    }
    true
}

// Whether nothing may happen but a tick and arrivals and losses of writes by servers that are stalled or dead.
fn is_quiet(world: &World, tree: &HostTree) -> bool
    requires going { world.now.over ≡ false }
    requires disk { tree.now.segments ≡ world.now.parties.segments }
    requires fresh { IsFresh world.now tree.now }
    ensures { IsTrue result ↔ IsQuiet (core_over world.now tree.now) }
{
    are_all_by_gone(world) && next_beside_flights(world, tree, ServerId::HOST).is_none()
}

/// Tick: nothing is needed.
pub(crate) fn ready_tick(world: &World, tree: &HostTree) -> Option<Made>
    requires going { world.now.over ≡ false }
    requires disk { tree.now.segments ≡ world.now.parties.segments }
    requires fresh { IsFresh world.now tree.now }
    ensures { IsMade (core_at world.now) world.now tree.now core.Tick result }
{
    if world.now() >= LAST_TICK {
        return None;
    }
    if is_one_at_gate(world) {
        return None;
    }
    if !is_quiet(world, tree) {
        return None;
    }
    Some(Made {
        ready: Ready::Tick,
        call: Call::Nothing,
    })
}
