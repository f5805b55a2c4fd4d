// What is made ready for a server's line: Begin, Ask, Again, Clear, Commit, Answer.
ghost use Rattle.std.specs.Prelude.{◌≡◌, ◌<◌, ◌↔◌, IfOk, IsSome, IsSomeAnd, IsTrue, Some, false, true};
ghost use Rattle.frang_base.specs.declared.limits.TheConstants.{SERVERS};
ghost use Rattle.tree_definitions.specs.SaidLines.{said_line};
ghost use Rattle.core_definitions.specs.Cores.{due_at, next_of, stage};
ghost use Rattle.core_definitions.specs.Events as core;
ghost use Rattle.core_definitions.specs.LineEffects.{number_under};
ghost use Rattle.core_definitions.specs.LineGuards.{CanAsk, CanClear};
ghost use Rattle.core_definitions.specs.Lines.{operation_of};
ghost use Rattle.core_definitions.specs.Plans as plans;
ghost use Rattle.line_stages.specs.Stages.{ComesTo, Finishes};
ghost use Rattle.server_core.specs.Phases.{reply_of};
ghost use Rattle.world_parties.specs.States.{plan_at};
ghost use Rattle.world_state.specs.Rooms.{HasCommitRoom};
ghost use Rattle.world_state.specs.States.{core_at};
ghost use Rattle.world_asks.specs.Fresh.{IsFreshAt};
ghost use Rattle.world_ready.specs.Making.{IsMadeOf};

use crate::kinds::{Made, Ready};
use crate::texts::{answer_text, plain_text};
use frang_base::{LockId, Mode, NoMemory, Reply, Said, ServerId, Text, What};
use hall_runs::Call;
use kept_plans::{KeptEnd, KeptPlan};
use line_stages::{Stage, ready_again as again_of, stage_of};
use server_core::PlainAnswer;
use std::alloc::Global;
use world_asks::Asking;
use world_parties::is_server;
use world_state::World;

// ---- Begin

// Whether the next line of a server asks an operation, as each of a script that was read does.
fn asks_operation(world: &World, a: ServerId) -> bool
    ensures { result ≡ true → IsSomeAnd (next_of (core_at world.now) a.0) (λ line. IsSome (operation_of line.what)) }
{
    match world.next_line(a) {
        Some(line) => match &line.what {
            What::Server(_) => true,
            What::Host(_) => false,
        },
        None => false,
    }
}

/// Begin: a server's next line, as it will be under way. Want of memory comes also where it asks no operation.
pub(crate) fn ready_begin(world: &World, a: ServerId) -> Result<Option<Made>, NoMemory>
    ensures { IfOk result (IsMadeOf (core_at world.now) world.now (core.Begin a.0)) }
{
    if !world.may_begin(a) {
        return Ok(None);
    }
    if !asks_operation(world, a) {
        return Err(NoMemory);
    }
    let under = world.ready_begin(a)?;
    Ok(Some(Made {
        ready: Ready::Begin(a, under),
        call: Call::Nothing,
    }))
}

// ---- Ask

// Whether a need is for this lock in this mode.
fn is_need(need: (LockId, Mode), lock: LockId, mode: Mode) -> bool
    ensures same { result ≡ true → need ≡ (lock, mode) }
    ensures other { result ≡ false → need ≡ (lock, mode) → ⊥ }
{
    need.0 == lock && need.1 == mode
}

// Whether a server's line asks next for this lock in this mode.
fn may_ask(world: &World, a: ServerId, lock: LockId, mode: Mode) -> bool
    requires server { a.0 < SERVERS }
    requires going { world.now.over ≡ false }
    requires fresh { IsFreshAt world.now a.0 }
    ensures { IsTrue result ↔ CanAsk (core_at world.now) a.0 lock mode }
{
    match Asking::new(world, a).asked_next() {
        Some(need) => is_need(need, lock, mode),
        None => false,
    }
}

/// Ask: room for the want.
pub(crate) fn ready_ask(
    world: &mut World,
    a: ServerId,
    lock: LockId,
    mode: Mode,
) -> Result<Option<Made>, NoMemory>
    requires server { a.0 < SERVERS }
    requires going { world.old.over ≡ false }
    requires fresh { IsFreshAt world.old a.0 }
    ensures core { core_at world.new ≡ core_at world.old }
    ensures made { IfOk result (IsMadeOf (core_at world.old) world.new (core.Ask a.0 lock mode)) }
{
    if !may_ask(world, a, lock, mode) {
        return Ok(None);
    }
    world.ready_ask(a, lock)?;
    Ok(Some(Made {
        ready: Ready::Ask(a, lock, mode),
        call: Call::Nothing,
    }))
}

// ---- Again

/// Again: what the line goes on with.
pub(crate) fn ready_again(
    alloc: Global,
    world: &World,
    a: ServerId,
) -> Result<Option<Made>, NoMemory>
    requires server { a.0 < SERVERS }
    requires going { world.now.over ≡ false }
    requires fresh { IsFreshAt world.now a.0 }
    ensures { IfOk result (IsMadeOf (core_at world.now) world.now (core.Again a.0)) }
{
    if !Asking::new(world, a).may_again() {
        return Ok(None);
    }
    // What its type keeps of the plan.
    let _over = world.is_over();
    let party = world.parties().get(a);
    let segments = world.parties().segments();
    match again_of(alloc, world.locks(), &party.server, segments, &party.plan)? {
        Some(again) => Ok(Some(Made {
            ready: Ready::Again(a, again),
            call: Call::Nothing,
        })),
        None => Err(NoMemory),
    }
}

// ---- Clear

// Whether two blocks are one.
fn is_block(one: u32, block: u32) -> bool
    ensures same { result ≡ true → one ≡ block }
    ensures other { result ≡ false → one ≡ block → ⊥ }
{
    one == block
}

// Whether a server's line clears this block next.
fn may_clear(world: &World, a: ServerId, block: u32) -> bool
    requires server { a.0 < SERVERS }
    requires going { world.now.over ≡ false }
    requires fresh { IsFreshAt world.now a.0 }
    ensures { IsTrue result ↔ CanClear (core_at world.now) a.0 block }
{
    match Asking::new(world, a).cleared_next() {
        Some(next) => is_block(next, block),
        None => false,
    }
}

/// Clear: room for the block.
pub(crate) fn ready_clear(
    world: &mut World,
    a: ServerId,
    block: u32,
) -> Result<Option<Made>, NoMemory>
    requires server { a.0 < SERVERS }
    requires going { world.old.over ≡ false }
    requires fresh { IsFreshAt world.old a.0 }
    ensures core { core_at world.new ≡ core_at world.old }
    ensures made { IfOk result (IsMadeOf (core_at world.old) world.new (core.Clear a.0 block)) }
{
    if !may_clear(world, a, block) {
        return Ok(None);
    }
    world.ready_clear(a)?;
    Ok(Some(Made {
        ready: Ready::Clear(a, block),
        call: Call::Nothing,
    }))
}

// ---- Commit

// Whether the plan that is kept of a server's line has it finished.
fn is_finished(world: &World, a: ServerId) -> bool
    requires server { a.0 < SERVERS }
    requires room { HasCommitRoom world.now a.0 }
    ensures { result ≡ true → Finishes (plan_at world.now.parties a.0) (stage (core_at world.now) a.0) }
{
    // What its type keeps of the plan.
    let _over = world.is_over();
    let party = world.parties().get(a);
    match stage_of(world.locks(), &party.server, &party.plan) {
        Some(Stage::Finishing) => true,
        _ => false,
    }
}

// The reply of a kept plan, which is of a finished line.
fn reply_kept(plan: &Option<KeptPlan>) -> Result<Reply, NoMemory>
    ensures { IfOk result (λ reply. (outcome : plans.Outcome) → ComesTo plan.now outcome → reply ≡ outcome.reply) }
{
    match plan {
        Some(KeptPlan::Planned(plan)) => match &plan.end {
            KeptEnd::Done(done) => done.outcome.reply.try_copy(),
            KeptEnd::Need { .. } => Err(NoMemory),
            KeptEnd::Segments => Err(NoMemory),
            KeptEnd::Clear { .. } => Err(NoMemory),
        },
        Some(KeptPlan::Moved) => Err(NoMemory),
        None => Err(NoMemory),
    }
}

// The answer to a server's line, which is finished.
fn committed_text(alloc: Global, world: &World, a: ServerId) -> Result<Text, NoMemory>
    requires { a.0 < SERVERS }
    ensures { IfOk result (λ text. (outcome : plans.Outcome) → ComesTo (plan_at world.now.parties a.0) outcome → text ≡ said_line (Said.Answer a (number_under ((core_at world.now).servers a.0).under) outcome.reply)) }
{
    let party = world.parties().get(a);
    let number = party.server.line_number();
    let reply = reply_kept(&party.plan)?;
    answer_text(alloc, a, number, reply)
}

/// Commit: room for what the line does. Want of memory comes also where the commit couldn't be carried out (`ready_commit` of the world).
pub(crate) fn ready_commit(
    alloc: Global,
    world: &mut World,
    a: ServerId,
) -> Result<Option<Made>, NoMemory>
    requires server { a.0 < SERVERS }
    requires going { world.old.over ≡ false }
    requires fresh { IsFreshAt world.old a.0 }
    ensures core { core_at world.new ≡ core_at world.old }
    ensures made { IfOk result (IsMadeOf (core_at world.old) world.new (core.Commit a.0)) }
{
    if !Asking::new(world, a).may_commit() {
        return Ok(None);
    }
    world.ready_commit(a)?;
    if !is_finished(world, a) {
        return Err(NoMemory);
    }
    let text = committed_text(alloc, world, a)?;
    Ok(Some(Made {
        ready: Ready::Commit(a),
        call: Call::Say(text),
    }))
}

// ---- Answer

// The answer that is due of a server.
fn ready_due(
    alloc: Global,
    world: &World,
    a: ServerId,
    answer: PlainAnswer,
) -> Result<Made, NoMemory>
    requires server { a.0 < SERVERS }
    requires due { due_at (core_at world.now) a.0 ≡ Some (reply_of answer) }
    ensures { IfOk result (λ made. IsMadeOf (core_at world.now) world.now (core.Answer a.0) (Some made)) }
{
    let ring = world.ready_answer(a, answer)?;
    let number = world.parties().get(a).server.line_number();
    let text = plain_text(alloc, a, number, answer)?;
    Ok(Made {
        ready: Ready::Answer(a, answer, ring),
        call: Call::Say(text),
    })
}

/// Answer: the answer that is due, with the ring of a mount that begins. Want of memory comes also where it couldn't be given (`ready_answer` of the world).
pub(crate) fn ready_answer(
    alloc: Global,
    world: &World,
    a: ServerId,
) -> Result<Option<Made>, NoMemory>
    ensures { IfOk result (IsMadeOf (core_at world.now) world.now (core.Answer a.0)) }
{
    if !is_server(a) {
        return Ok(None);
    }
    match world.due(a) {
        Some(answer) => Ok(Some(ready_due(alloc, world, a, answer)?)),
        None => Ok(None),
    }
}
