// The events of writes in flight: Arrive, Lose.
ghost use Rattle.std.specs.Prelude.{◌∷◌, OnOk, []};
ghost use Rattle.std.specs.List.{flat_map, slice_get};
ghost use Rattle.std.specs.Option.{option_to_list};
ghost use Rattle.core_definitions.specs.Events.{Arrive};
ghost use Rattle.world_list.specs.Listing.{Adds, AddsOf};
ghost use Rattle.world_list.specs.Rows.{arrive_events, lose_events, lose_of};

use crate::pushing::push_if;
use frang_base::NoMemory;
use hall_runs::Event;
use petal_disk::Flight;
use world_state::World;

// The arrival of the write at a place.
fn push_arrive(list: &mut Vec<Event>, flights: &Flight, i: usize) -> Result<(), NoMemory>
    ensures { OnOk result (Adds list.old.items list.new.items (flat_map (λ one. Arrive one.0.0 ∷ []) (option_to_list (slice_get flights.now.flying i)))) }
{
    match flights.flying_at(i) {
        Some((ticket, _)) => push_if(list, true, Event::Arrive(ticket)),
        None => Ok(()),
    }
}

/// Arrive.
pub(crate) fn push_arrives(list: &mut Vec<Event>, world: &World) -> Result<(), NoMemory>
    ensures { OnOk result (AddsOf list.old.items list.new.items (arrive_events world.now)) }
{
    let flights = world.flights();
    for i in 0..flights.count() {
        push_arrive(list, flights, i)?;
    }
    Ok(())
}

// The loss of the write at a place, if it may be lost.
#[tactic(auto, unfolding(crate::specs::Rows::lose_of))]
fn push_lose(list: &mut Vec<Event>, world: &World, i: usize) -> Result<(), NoMemory>
    ensures { OnOk result (Adds list.old.items list.new.items (flat_map (λ one. lose_of world.now one.0.0) (option_to_list (slice_get world.now.flights.flying i)))) }
{
    match world.flights().flying_at(i) {
        Some((ticket, _)) => push_if(list, world.may_lose(ticket), Event::Lose(ticket)),
        None => Ok(()),
    }
}

/// Lose.
pub(crate) fn push_loses(list: &mut Vec<Event>, world: &World) -> Result<(), NoMemory>
    ensures { OnOk result (AddsOf list.old.items list.new.items (lose_events world.now)) }
{
    for i in 0..world.flights().count() {
        push_lose(list, world, i)?;
    }
    Ok(())
}
