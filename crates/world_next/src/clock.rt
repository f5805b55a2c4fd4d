// The clock: Tick.
ghost use Rattle.std.specs.Prelude.{◌≡◌};
ghost use Rattle.core_definitions.specs.Guards.{CanTick, has_line_at_gate};
ghost use Rattle.world_state.specs.States.{core_at};
ghost use Rattle.world_next.specs.NoEvents.{NoneOther};
ghost use Rattle.world_next.specs.Over.{core_over};
ghost use Rattle.world_next.specs.Picking.{Picks};
ghost use Rattle.host_tree.specs.Reading.{HostReading};

use frang_base::ServerId;
use frang_base::limits::{LAST_TICK, SERVERS};
use hall_runs::Event;
use world_state::World;

/// Whether a line is kept by the gate alone.
pub fn is_one_at_gate(world: &World) -> bool
    ensures { result ≡ has_line_at_gate (core_at world.now) }
{
    for a in 0..SERVERS as u8 {
        if world.is_at_gate(ServerId(a)) {
            return true;
        }
    }
    false
}

/// The clock goes on, where nothing else may happen.
pub(crate) fn tick_event(world: &World) -> Option<Event>
    ensures { (tree : HostReading) → NoneOther (core_over world.now tree) → Picks (core_over world.now tree) (λ c. CanTick c → ⊥) result }
{
    if world.now() >= LAST_TICK {
        return None;
    }
    if is_one_at_gate(world) {
        return None;
    }
    Some(Event::Tick)
}
