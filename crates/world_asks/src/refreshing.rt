// What is kept beside a party is made up to date.
ghost use Rattle.std.specs.Prelude.{◌≡◌, ℕ, ◌<◌, ◌==◌, ◌||◌, ◌&&◌, IfOk, IsTrue, OnOk, is_some, not, true};
ghost use Rattle.frang_base.specs.declared.limits.TheConstants.{SERVERS};
ghost use Rattle.log_slots.specs.Reading.{log_rules};
ghost use Rattle.core_definitions.specs.Cores.{stage};
ghost use Rattle.core_definitions.specs.LineGuards.{is_server};
ghost use Rattle.core_definitions.specs.Scripts.{host_party};
ghost use Rattle.core_definitions.specs.Writes.{lacks_room};
ghost use Rattle.kept_plans.specs.Kept.{IsKeptBeside, IsPlanOf};
ghost use Rattle.line_stages.specs.Stages.{wants_plan};
ghost use Rattle.tree_definitions.specs.Live.{number_of as operation_number};
ghost use Rattle.world_parties.specs.States.{IsFresh, oldest_at, plan_at, recovering_by, servers_at};
ghost use Rattle.world_state.specs.States.{core_at};
ghost use Rattle.world_asks.specs.Changes.{ChangesBeside};
ghost use Rattle.world_asks.specs.Fresh.{AreAllFresh, IsFreshAt};

use crate::times::time_of;
use frang_base::limits::{RUN_LINES_END, SERVERS};
use frang_base::{NoMemory, Op, ServerId};
use kept_plans::KeptPlan;
use line_stages::{lacks_room, oldest_sectors, stage_of, wants_plan};
use plan_keeping::{LineToPlan, plan_to_keep};
use server_core::{Server, Under};
use std::alloc::Global;
use world_state::World;

// ---- its recovery

// What the slots of a party's recovery say is read off them, if it carries out one.
fn refresh_recovery(world: &mut World, by: ServerId) -> Result<(), NoMemory>
    requires { IsTrue (is_server by.0 || by.0 == host_party) }
    ensures changes { ChangesBeside world.old world.new by.0 }
    ensures ok { OnOk result (IsFresh world.new.parties by.0) }
{
    world.refresh_recovery(by)
}

// ---- its plan

// The number of the operation of a line.
fn operation_number(run: u32, line: u32) -> u64
    ensures { result ≡ operation_number run line }
{
    u64::from(run) * RUN_LINES_END + u64::from(line)
}

// The plan of a line under way that asks this operation, over what a server has cached.
fn plan_of(
    alloc: Global,
    world: &World,
    server: &Server,
    under: &Under,
    operation: &Op,
) -> Result<KeptPlan, NoMemory>
    ensures { IfOk result (IsPlanOf (core_at world.now).setting under.now.under operation.now server.now.server.cache) }
{
    let number = under.number();
    let when = time_of(world.places(), world.run(), number)?;
    let line = LineToPlan {
        operation,
        number: operation_number(world.run(), number),
        when,
        segments: world.parties().segments(),
    };
    plan_to_keep(alloc, server.cache(), under, &line)
}

// The plan of the line of a server whose stage goes by it.
fn plan_for(alloc: Global, world: &World, server: &Server) -> Result<KeptPlan, NoMemory>
    requires { wants_plan world.now.locks.locks server.now.id server.now.server ≡ true }
    ensures { IfOk result (λ plan. IsKeptBeside (core_at world.now).setting server.now.server (Some plan)) }
{
    match server.under() {
        Some(under) => match under.operation() {
            Some(operation) => plan_of(alloc, world, server, under, operation),
            None => unreachable!(),
        },
        None => unreachable!(),
    }
}

// Whether the stage of a server goes by its plan, and none is kept.
fn lacks_plan(world: &World, a: ServerId) -> bool
    requires { a.0 < SERVERS }
    ensures { result ≡ (wants_plan world.now.locks.locks a.0 (servers_at world.now.parties a.0) && not (is_some (plan_at world.now.parties a.0))) }
{
    let party = world.parties().get(a);
    wants_plan(world.locks(), &party.server) && party.plan.is_none()
}

// The plan of a server's line is kept, where its stage goes by it.
fn refresh_plan(alloc: Global, world: &mut World, a: ServerId) -> Result<(), NoMemory>
    requires { a.0 < SERVERS }
    ensures changes { ChangesBeside world.old world.new a.0 }
    ensures recovery { recovering_by world.new.parties a.0 ≡ recovering_by world.old.parties a.0 }
    ensures ok { OnOk result (wants_plan world.new.locks.locks a.0 (servers_at world.new.parties a.0) ≡ true → is_some (plan_at world.new.parties a.0) ≡ true) }
{
    if lacks_plan(world, a) {
        let plan = plan_for(alloc, world, &world.parties().get(a).server)?;
        world.keep_plan(a, plan);
    }
    Ok(())
}

// ---- the sectors of its oldest records

// Whether the line of a server lacks room in its log. Where its stage goes by its plan, one is kept.
fn waits_for_room(world: &World, a: ServerId) -> bool
    requires server { a.0 < SERVERS }
    requires plan { wants_plan world.now.locks.locks a.0 (servers_at world.now.parties a.0) ≡ true → is_some (plan_at world.now.parties a.0) ≡ true }
    ensures { result ≡ lacks_room log_rules (servers_at world.now.parties a.0).ring (stage (core_at world.now) a.0) }
{
    // What its type keeps of the plan.
    let _over = world.is_over();
    let party = world.parties().get(a);
    let stage = stage_of(world.locks(), &party.server, &party.plan);
    party.server.is_up() && lacks_room(&stage, &party.server, &party.plan)
}

// Whether it does, and the sectors of its oldest records aren't kept.
fn lacks_oldest(world: &World, a: ServerId) -> bool
    requires server { a.0 < SERVERS }
    requires plan { wants_plan world.now.locks.locks a.0 (servers_at world.now.parties a.0) ≡ true → is_some (plan_at world.now.parties a.0) ≡ true }
    ensures { result ≡ (lacks_room log_rules (servers_at world.now.parties a.0).ring (stage (core_at world.now) a.0) && not (is_some (oldest_at world.now.parties a.0))) }
{
    waits_for_room(world, a) && world.parties().get(a).oldest.is_none()
}

// The sectors of a server's oldest records are kept, where its line lacks room in its log.
fn refresh_oldest(alloc: Global, world: &mut World, a: ServerId) -> Result<(), NoMemory>
    requires server { a.0 < SERVERS }
    requires plan { wants_plan world.old.locks.locks a.0 (servers_at world.old.parties a.0) ≡ true → is_some (plan_at world.old.parties a.0) ≡ true }
    ensures changes { ChangesBeside world.old world.new a.0 }
    ensures recovery { recovering_by world.new.parties a.0 ≡ recovering_by world.old.parties a.0 }
    ensures plan { plan_at world.new.parties a.0 ≡ plan_at world.old.parties a.0 }
    ensures ok { OnOk result (lacks_room log_rules (servers_at world.new.parties a.0).ring (stage (core_at world.new) a.0) ≡ true → is_some (oldest_at world.new.parties a.0) ≡ true) }
{
    if lacks_oldest(world, a) {
        let oldest = oldest_sectors(alloc, &world.parties().get(a).server)?;
        world.keep_oldest(a, oldest);
    }
    Ok(())
}

// ---- all of it

/// What is kept beside a server, 0 to 15, is made up to date: its plan where its stage goes by it and none is kept, the sectors of its oldest records where its line lacks room and they
/// aren't kept, and what the slots of its recovery say. The core is the same, whatever the answer. Its one refusal is want of memory, which it says too where the line can't be planned
/// (`plan_to_keep`) or has no time.
pub fn refresh(alloc: Global, world: &mut World, a: ServerId) -> Result<(), NoMemory>
    requires { a.0 < SERVERS }
    ensures core { core_at world.new ≡ core_at world.old }
    ensures ok { OnOk result (IsFreshAt world.new a.0) }
    ensures others { (b : ℕ) → (b ≡ a.0 → ⊥) → IsFreshAt world.old b → IsFreshAt world.new b }
{
    refresh_recovery(world, a)?;
    refresh_plan(alloc, world, a)?;
    refresh_oldest(alloc, world, a)
}

/// The same of all sixteen servers, and of the recovery of the host.
pub fn refresh_all(alloc: Global, world: &mut World) -> Result<(), NoMemory>
    ensures core { core_at world.new ≡ core_at world.old }
    ensures ok { OnOk result (AreAllFresh world.new) }
{
    for a in 0..SERVERS as u8 {
        refresh(alloc, world, ServerId(a))?;
    }
    refresh_recovery(world, ServerId::HOST)
}
