// What is made ready for recoveries: Recover, Load, Look, Finish.
ghost use Rattle.std.specs.Prelude.{◌≡◌, IfOk, IsTrue, true};
ghost use Rattle.core_definitions.specs.Effects.{id_of};
ghost use Rattle.core_definitions.specs.EndGuards.{may_finish};
ghost use Rattle.core_definitions.specs.Events as core;
ghost use Rattle.core_definitions.specs.WriteGuards.{is_worker};
ghost use Rattle.hall_runs.specs.Asking.{Asks};
ghost use Rattle.log_slots.specs.Reading.{are_all_read};
ghost use Rattle.recovery_demon.specs.Recovering.{greatest_kept};
ghost use Rattle.tree_definitions.specs.SaidLines.{said_line};
ghost use Rattle.world_parties.specs.States.{IsFresh};
ghost use Rattle.world_state.specs.States.{core_at};
ghost use Rattle.world_ready.specs.Making.{IsMadeOf};

use crate::kinds::{Made, Ready};
use crate::texts::text_of;
use frang_base::{NoMemory, Said, Sector, ServerId, Text};
use frang_layout::{Region, sector_of};
use hall_runs::Call;
use recovery_demon::Demon;
use std::alloc::Global;
use world_state::World;

// ---- Recover

/// Recover: the recovery as it begins, and that it is said.
pub(crate) fn ready_recover(
    alloc: Global,
    world: &World,
    dead: ServerId,
    by: ServerId,
) -> Result<Option<Made>, NoMemory>
    ensures { IfOk result (IsMadeOf (core_at world.now) world.now (core.Recover dead.0 by.0)) }
{
    if !world.may_recover(dead, by) {
        return Ok(None);
    }
    let demon = world.ready_recover(dead)?;
    let text = text_of(alloc, &Said::Recovering { server: dead, by })?;
    Ok(Some(Made {
        ready: Ready::Recover(dead, by, demon),
        call: Call::Say(text),
    }))
}

// ---- Load, Look

// The get of a slot of the log that a party recovers.
fn slot_call(world: &World, by: ServerId, slot: u8) -> Call
    requires { IsTrue (is_worker (core_at world.now) by.0) }
    ensures { Asks (core_at world.now) (core.Load by.0 slot) result }
{
    match world.parties().recovery(by) {
        Some(demon) => Call::Get(
            by,
            sector_of(&Region::Log {
                server: demon.dead().0,
                slot,
            }),
        ),
        None => Call::Nothing,
    }
}

/// Load: room for the slot.
pub(crate) fn ready_load(
    world: &mut World,
    by: ServerId,
    slot: u8,
) -> Result<Option<Made>, NoMemory>
    ensures core { core_at world.new ≡ core_at world.old }
    ensures made { IfOk result (IsMadeOf (core_at world.old) world.new (core.Load by.0 slot)) }
{
    if !world.may_load(by, slot) {
        return Ok(None);
    }
    world.ready_recovery(by)?;
    Ok(Some(Made {
        ready: Ready::Load(by, slot),
        call: slot_call(world, by, slot),
    }))
}

/// Look: room for what is seen.
pub(crate) fn ready_look(
    world: &mut World,
    by: ServerId,
    sector: Sector,
) -> Result<Option<Made>, NoMemory>
    ensures core { core_at world.new ≡ core_at world.old }
    ensures made { IfOk result (IsMadeOf (core_at world.old) world.new (core.Look by.0 sector.0)) }
{
    if !world.parties().is_worker(by) {
        return Ok(None);
    }
    world.ready_recovery(by)?;
    if !world.may_look(by, sector) {
        return Ok(None);
    }
    Ok(Some(Made {
        ready: Ready::Look(by, sector),
        call: Call::Get(by, sector),
    }))
}

// ---- Finish

// What is said at the end of a recovery that is through.
fn recovered_text(alloc: Global, demon: &Demon) -> Result<Text, NoMemory>
    requires fresh { IsTrue demon.now.is_fresh }
    requires read { are_all_read demon.now.recovery.slots ≡ true }
    ensures { IfOk result (λ text. text ≡ said_line (Said.Recovered (id_of demon.now.recovery.dead) (record { 0 = greatest_kept demon.now.recovery }))) }
{
    text_of(
        alloc,
        &Said::Recovered {
            server: demon.dead(),
            keeps: demon.greatest(),
        },
    )
}

// The same of the recovery that a party carries out.
fn finished_text(alloc: Global, world: &World, by: ServerId) -> Result<Text, NoMemory>
    requires may { IsTrue (may_finish (core_at world.now) by.0) }
    requires fresh { IsFresh world.now.parties by.0 }
    ensures { IfOk result (λ text. Asks (core_at world.now) (core.Finish by.0) (Call.Say text)) }
{
    match world.parties().recovery(by) {
        Some(demon) => recovered_text(alloc, demon),
        None => unreachable!(),
    }
}

/// Finish: what is said.
pub(crate) fn ready_finish(
    alloc: Global,
    world: &mut World,
    by: ServerId,
) -> Result<Option<Made>, NoMemory>
    ensures core { core_at world.new ≡ core_at world.old }
    ensures made { IfOk result (IsMadeOf (core_at world.old) world.new (core.Finish by.0)) }
{
    if !world.parties().is_worker(by) {
        return Ok(None);
    }
    world.refresh_recovery(by)?;
    if !world.may_finish(by) {
        return Ok(None);
    }
    let text = finished_text(alloc, world, by)?;
    Ok(Some(Made {
        ready: Ready::Finish(by),
        call: Call::Say(text),
    }))
}
