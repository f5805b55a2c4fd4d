// The events of recoveries: Recover, Load, Look, Finish.
ghost use Rattle.std.specs.Prelude.{OnOk};
ghost use Rattle.std.specs.List.{flat_map};
ghost use Rattle.core_definitions.specs.Cores.{parties};
ghost use Rattle.core_definitions.specs.EndGuards.{may_recover};
ghost use Rattle.core_definitions.specs.Enabled.{only};
ghost use Rattle.core_definitions.specs.Events.{Recover};
ghost use Rattle.world_list.specs.Going.{IsGoing, IsParty};
ghost use Rattle.world_list.specs.Listing.{Adds, AddsOf};
ghost use Rattle.world_list.specs.Rows.{party_events, recover_events};
ghost use Rattle.world_list.specs.declared.row.Row.TheVariants as rows;
ghost use Rattle.world_state.specs.States.{core_at};

use crate::pushing::push_if;
use crate::wants::{push_loads_of, push_looks_of};
use frang_base::limits::SERVERS;
use frang_base::{NoMemory, ServerId};
use hall_runs::Event;
use world_state::World;

// ---- Recover

// Of one server's log, by each party.
fn push_recover(list: &mut Vec<Event>, world: &World, dead: ServerId) -> Result<(), NoMemory>
    ensures { OnOk result (Adds list.old.items list.new.items (flat_map (λ by. only (may_recover (core_at world.now) dead.0 by) (Recover dead.0 by)) parties)) }
{
    for number in 0..SERVERS as u8 {
        let by = ServerId(number);
        push_if(list, world.may_recover(dead, by), Event::Recover(dead, by))?;
    }
    let by = ServerId::HOST;
    push_if(list, world.may_recover(dead, by), Event::Recover(dead, by))
}

/// Recover.
pub(crate) fn push_recovers(list: &mut Vec<Event>, world: &World) -> Result<(), NoMemory>
    ensures { OnOk result (AddsOf list.old.items list.new.items (recover_events world.now)) }
{
    for dead in 0..SERVERS as u8 {
        push_recover(list, world, ServerId(dead))?;
    }
    Ok(())
}

// ---- what one wants

/// Load.
pub(crate) fn push_loads(list: &mut Vec<Event>, world: &World, by: ServerId) -> Result<(), NoMemory>
    ensures { OnOk result (AddsOf list.old.items list.new.items (party_events world.now rows.Loads by.0)) }
{
    if !world.parties().is_worker(by) {
        return Ok(());
    }
    match world.parties().recovery(by) {
        Some(demon) => push_loads_of(list, by, &demon.wants()?),
        None => Ok(()),
    }
}

/// Look.
pub(crate) fn push_looks(list: &mut Vec<Event>, world: &World, by: ServerId) -> Result<(), NoMemory>
    ensures { OnOk result (AddsOf list.old.items list.new.items (party_events world.now rows.Looks by.0)) }
{
    if !world.parties().is_worker(by) {
        return Ok(());
    }
    match world.parties().recovery(by) {
        Some(demon) => push_looks_of(list, by, &demon.wants()?),
        None => Ok(()),
    }
}

/// Finish.
pub(crate) fn push_finish(
    list: &mut Vec<Event>,
    world: &World,
    by: ServerId,
) -> Result<(), NoMemory>
    requires going { IsGoing world.now }
    requires party { IsParty by.0 }
    ensures { OnOk result (AddsOf list.old.items list.new.items (party_events world.now rows.Finishes by.0)) }
{
    push_if(list, world.may_finish(by), Event::Finish(by))
}
