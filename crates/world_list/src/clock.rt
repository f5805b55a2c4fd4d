// The clock: Tick, by what else may happen.
ghost use Rattle.std.specs.Prelude.{◌≡◌, ◌++◌, ◌&&◌, nat_lt, not};
ghost use Rattle.std.specs.List.{list_all};
ghost use Rattle.frang_base.specs.declared.limits.TheConstants.{LAST_TICK};
ghost use Rattle.core_definitions.specs.Enabled.{may_tick};
ghost use Rattle.core_definitions.specs.Guards.{has_line_at_gate, is_stale};
ghost use Rattle.hall_runs.specs.Asking.{event_of};
ghost use Rattle.host_tree.specs.Reading.{HostReading};
ghost use Rattle.world_list.specs.Listing.{events_of};
ghost use Rattle.world_list.specs.Over.{core_over};
ghost use Rattle.world_state.specs.States.{core_at};

use frang_base::ServerId;
use frang_base::limits::{LAST_TICK, SERVERS};
use hall_runs::Event;
use world_state::World;

// Whether an event is the arrival or the loss of a write in flight whose server is stalled or dead.
fn is_stale(world: &World, event: &Event) -> bool
    ensures { (tree : HostReading) → result ≡ is_stale (core_over world.now tree) (event_of event.now) }
{
    match event {
        Event::Arrive(ticket) | Event::Lose(ticket) => world.is_by_gone(*ticket),
        _ => false,
    }
}

// Whether all these are.
fn are_stale(world: &World, events: &[Event]) -> bool
    ensures { (tree : HostReading) → result ≡ list_all (is_stale (core_over world.now tree)) (events_of events.now) }
{
    for event in events {
        if !is_stale(world, event) {
            return false;
        }
    }
    true
}

// Whether a line is kept by the gate alone.
fn is_one_at_gate(world: &World) -> bool
    ensures { result ≡ has_line_at_gate (core_at world.now) }
{
    for a in 0..SERVERS as u8 {
        if world.is_at_gate(ServerId(a)) {
            return true;
        }
    }
    false
}

// Whether all of both lists are stale.
fn are_both_stale(world: &World, before: &[Event], behind: &[Event]) -> bool
    ensures { (tree : HostReading) → result ≡ (list_all (is_stale (core_over world.now tree)) (events_of before.now) && list_all (is_stale (core_over world.now tree)) (events_of behind.now)) }
{
    are_stale(world, before) && are_stale(world, behind)
}

// Whether no line is at the gate and the clock isn't at its end.
fn is_free(world: &World) -> bool
    ensures { result ≡ (not (has_line_at_gate (core_at world.now)) && nat_lt world.now.tick LAST_TICK) }
{
    !is_one_at_gate(world) && world.now() < LAST_TICK
}

/// Whether the clock may go on: these events, those before it in the list and those behind it, are all others that may happen.
pub(crate) fn may_tick(world: &World, before: &[Event], behind: &[Event]) -> bool
    ensures { (tree : HostReading) → result ≡ may_tick (core_over world.now tree) (events_of before.now ++ events_of behind.now) }
{
    are_both_stale(world, before, behind) && is_free(world)
}
