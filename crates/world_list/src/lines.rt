// Of one party the events of lines: Begin, Ask, Again, Clear, Commit, Answer.
ghost use Rattle.std.specs.Prelude.{◌≡◌, ◌&&◌, None, OnOk, if◌then◌else◌};
ghost use Rattle.core_definitions.specs.Cores.{stage};
ghost use Rattle.core_definitions.specs.LineGuards.{is_server, may_again, may_answer, may_commit};
ghost use Rattle.line_stages.specs.Stages.{asked_next, cleared_next};
ghost use Rattle.world_list.specs.Going.{AreStages, IsGoing};
ghost use Rattle.world_list.specs.Listing.{AddsOf};
ghost use Rattle.world_list.specs.Rows.{party_events};
ghost use Rattle.world_list.specs.declared.row.Row.TheVariants as rows;
ghost use Rattle.world_state.specs.States.{core_at};

use crate::asked::asked;
use crate::pushing::push_if;
use frang_base::{LockId, Mode, NoMemory, ServerId};
use hall_runs::Event;
use line_stages::Stage;
use world_parties::is_server;
use world_state::World;

/// Begin.
pub(crate) fn push_begin(list: &mut Vec<Event>, world: &World, a: ServerId) -> Result<(), NoMemory>
    ensures { OnOk result (AddsOf list.old.items list.new.items (party_events world.now rows.Begins a.0)) }
{
    push_if(list, world.may_begin(a), Event::Begin(a))
}

// The lock for which a server's line asks next.
fn asked_next(world: &World, stages: &[Option<Stage>], a: ServerId) -> Option<(LockId, Mode)>
    requires going { IsGoing world.now }
    requires stages { AreStages world.now stages.now }
    ensures { result ≡ (if is_server a.0 then asked_next (core_at world.now).locks a.0 (stage (core_at world.now) a.0) else None) }
{
    if !is_server(a) {
        return None;
    }
    asked(world, stages, a).asked_next()
}

/// Ask.
pub(crate) fn push_ask(
    list: &mut Vec<Event>,
    world: &World,
    stages: &[Option<Stage>],
    a: ServerId,
) -> Result<(), NoMemory>
    requires going { IsGoing world.now }
    requires stages { AreStages world.now stages.now }
    ensures { OnOk result (AddsOf list.old.items list.new.items (party_events world.now rows.Asks a.0)) }
{
    match asked_next(world, stages, a) {
        Some((lock, mode)) => push_if(list, true, Event::Ask(a, lock, mode)),
        None => Ok(()),
    }
}

// Whether a server's line may go on again.
fn may_again(world: &World, stages: &[Option<Stage>], a: ServerId) -> bool
    requires going { IsGoing world.now }
    requires stages { AreStages world.now stages.now }
    ensures { result ≡ may_again (core_at world.now) a.0 (stage (core_at world.now) a.0) }
{
    is_server(a) && asked(world, stages, a).may_again()
}

/// Again.
pub(crate) fn push_again(
    list: &mut Vec<Event>,
    world: &World,
    stages: &[Option<Stage>],
    a: ServerId,
) -> Result<(), NoMemory>
    requires going { IsGoing world.now }
    requires stages { AreStages world.now stages.now }
    ensures { OnOk result (AddsOf list.old.items list.new.items (party_events world.now rows.Agains a.0)) }
{
    push_if(list, may_again(world, stages, a), Event::Again(a))
}

// The block that a server's line has cleared.
fn cleared_next(world: &World, stages: &[Option<Stage>], a: ServerId) -> Option<u32>
    requires going { IsGoing world.now }
    requires stages { AreStages world.now stages.now }
    ensures { result ≡ (if is_server a.0 then cleared_next (stage (core_at world.now) a.0) else None) }
{
    if !is_server(a) {
        return None;
    }
    asked(world, stages, a).cleared_next()
}

/// Clear.
pub(crate) fn push_clear(
    list: &mut Vec<Event>,
    world: &World,
    stages: &[Option<Stage>],
    a: ServerId,
) -> Result<(), NoMemory>
    requires going { IsGoing world.now }
    requires stages { AreStages world.now stages.now }
    ensures { OnOk result (AddsOf list.old.items list.new.items (party_events world.now rows.Clears a.0)) }
{
    match cleared_next(world, stages, a) {
        Some(block) => push_if(list, true, Event::Clear(a, block)),
        None => Ok(()),
    }
}

// Whether a server's line may be committed.
fn may_commit(world: &World, stages: &[Option<Stage>], a: ServerId) -> bool
    requires going { IsGoing world.now }
    requires stages { AreStages world.now stages.now }
    ensures { result ≡ may_commit (core_at world.now) a.0 (stage (core_at world.now) a.0) }
{
    is_server(a) && asked(world, stages, a).may_commit()
}

/// Commit.
pub(crate) fn push_commit(
    list: &mut Vec<Event>,
    world: &World,
    stages: &[Option<Stage>],
    a: ServerId,
) -> Result<(), NoMemory>
    requires going { IsGoing world.now }
    requires stages { AreStages world.now stages.now }
    ensures { OnOk result (AddsOf list.old.items list.new.items (party_events world.now rows.Commits a.0)) }
{
    push_if(list, may_commit(world, stages, a), Event::Commit(a))
}

// Whether an answer of a server is due.
fn may_answer(world: &World, stages: &[Option<Stage>], a: ServerId) -> bool
    requires going { IsGoing world.now }
    requires stages { AreStages world.now stages.now }
    ensures { result ≡ may_answer (core_at world.now) a.0 }
{
    is_server(a) && asked(world, stages, a).may_answer()
}

/// Answer.
pub(crate) fn push_answer(
    list: &mut Vec<Event>,
    world: &World,
    stages: &[Option<Stage>],
    a: ServerId,
) -> Result<(), NoMemory>
    requires going { IsGoing world.now }
    requires stages { AreStages world.now stages.now }
    ensures { OnOk result (AddsOf list.old.items list.new.items (party_events world.now rows.Answers a.0)) }
{
    push_if(list, may_answer(world, stages, a), Event::Answer(a))
}
