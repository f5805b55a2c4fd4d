// The writes in flight: Arrive, and beside it Lose.
ghost use Rattle.world_next.specs.NoEvents.{NoneOfFlights};
ghost use Rattle.world_next.specs.Over.{core_over};
ghost use Rattle.world_next.specs.Picking.{Picks};
ghost use Rattle.host_tree.specs.Reading.{HostReading};

use hall_runs::Event;
use world_state::World;

/// The first write in flight arrives. One that could be lost may arrive as well, so that none is lost here.
pub(crate) fn flight_event(world: &World) -> Option<Event>
    ensures { (tree : HostReading) → Picks (core_over world.now tree) NoneOfFlights result }
{
    match world.flights().flying_at(0) {
        Some((ticket, _)) => Some(Event::Arrive(ticket)),
        None => None,
    }
}
