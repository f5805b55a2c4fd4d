// What is made ready, by the event.
ghost use Rattle.std.specs.Prelude.{◌≡◌, ◌<◌, IfOk, false};
ghost use Rattle.frang_base.specs.declared.limits.TheConstants.{SERVERS};
ghost use Rattle.core_definitions.specs.Events as core;
ghost use Rattle.hall_runs.specs.Asking.{event_of};
ghost use Rattle.world_state.specs.States.{core_at};
ghost use Rattle.world_asks.specs.Fresh.{IsFreshAt};
ghost use Rattle.world_ready.specs.Asked.{IsOwn, event_for};
ghost use Rattle.world_ready.specs.Making.{IsMade, IsMadeOf, Makes};
ghost use Rattle.world_ready.specs.Trees.{IsSaidInTime, SameReading};

use crate::clock::ready_tick;
use crate::ends::{ready_close, ready_end, ready_host_line, ready_read, ready_show};
use crate::fetches::ready_fetch;
use crate::kinds::Made;
use crate::lines::{ready_again, ready_answer, ready_ask, ready_begin, ready_clear, ready_commit};
use crate::lives::{ready_die, ready_doom, ready_renew, ready_resume};
use crate::recoveries::{ready_finish, ready_load, ready_look, ready_recover};
use crate::up_to_date::refresh;
use crate::writes::{ready_arrive, ready_give, ready_host_issue, ready_issue, ready_lose};
use frang_base::{LockId, Mode, NoMemory, Sector, ServerId};
use hall_runs::Event;
use host_tree::HostTree;
use std::alloc::Global;
use world_asks::refresh as refresh_party;
use world_parties::is_server;
use world_state::World;

/// An event of a server that goes by what is kept beside it.
#[derive(Clone, Copy)]
enum Asked {
    Ask(LockId, Mode),
    Fetch(Sector),
    Again,
    Clear(u32),
    Commit,
    Issue(Sector),
    Doom,
}

// ---- of a server that is up to date

// What its line does.
fn ready_fresh(
    alloc: Global,
    world: &mut World,
    a: ServerId,
    asked: Asked,
) -> Result<Option<Made>, NoMemory>
    requires server { a.0 < SERVERS }
    requires going { world.old.over ≡ false }
    requires fresh { IsFreshAt world.old a.0 }
    ensures core { core_at world.new ≡ core_at world.old }
    ensures made { IfOk result (IsMadeOf (core_at world.old) world.new (event_for a.0 asked)) }
{
    match asked {
        Asked::Ask(lock, mode) => ready_ask(world, a, lock, mode),
        Asked::Fetch(sector) => ready_fetch(world, a, sector),
        Asked::Again => ready_again(alloc, world, a),
        Asked::Clear(block) => ready_clear(world, a, block),
        Asked::Commit => ready_commit(alloc, world, a),
        Asked::Issue(sector) => ready_issue(world, a, sector),
        Asked::Doom => Ok(ready_doom(world, a)),
    }
}

// What is kept beside a server is made up to date, and it is asked then.
fn ready_asked(
    alloc: Global,
    world: &mut World,
    a: ServerId,
    asked: Asked,
) -> Result<Option<Made>, NoMemory>
    requires server { a.0 < SERVERS }
    requires going { world.old.over ≡ false }
    ensures core { core_at world.new ≡ core_at world.old }
    ensures made { IfOk result (IsMadeOf (core_at world.old) world.new (event_for a.0 asked)) }
{
    refresh_party(alloc, world, a)?;
    ready_fresh(alloc, world, a, asked)
}

// ---- by who is asked

// Of a server, if it is one.
fn ready_of(
    alloc: Global,
    world: &mut World,
    a: ServerId,
    asked: Asked,
) -> Result<Option<Made>, NoMemory>
    requires own { IsOwn asked }
    requires going { world.old.over ≡ false }
    ensures core { core_at world.new ≡ core_at world.old }
    ensures made { IfOk result (IsMadeOf (core_at world.old) world.new (event_for a.0 asked)) }
{
    if is_server(a) {
        ready_asked(alloc, world, a, asked)
    } else {
        Ok(None)
    }
}

// Issue, of a server or of the host.
fn ready_issue_by(
    alloc: Global,
    world: &mut World,
    by: ServerId,
    sector: Sector,
) -> Result<Option<Made>, NoMemory>
    requires going { world.old.over ≡ false }
    ensures core { core_at world.new ≡ core_at world.old }
    ensures made { IfOk result (IsMadeOf (core_at world.old) world.new (core.Issue by.0 sector.0)) }
{
    if is_server(by) {
        ready_asked(alloc, world, by, Asked::Issue(sector))
    } else if by == ServerId::HOST {
        ready_host_issue(world, sector)
    } else {
        Ok(None)
    }
}

// Tick, once all is up to date.
fn ready_clock(
    alloc: Global,
    world: &mut World,
    tree: &mut HostTree,
) -> Result<Option<Made>, NoMemory>
    requires going { world.old.over ≡ false }
    requires disk { tree.old.segments ≡ world.old.parties.segments }
    requires said { IsSaidInTime tree.old }
    ensures core { core_at world.new ≡ core_at world.old }
    ensures reading { SameReading tree.old tree.new }
    ensures made { IfOk result (IsMade (core_at world.old) world.new tree.new core.Tick) }
{
    refresh(alloc, world, tree)?;
    Ok(ready_tick(world, tree))
}

// ---- all

// What an event needs while the world isn't over.
fn ready_going(
    alloc: Global,
    world: &mut World,
    tree: &mut HostTree,
    event: &Event,
) -> Result<Option<Made>, NoMemory>
    requires going { world.old.over ≡ false }
    requires disk { tree.old.segments ≡ world.old.parties.segments }
    requires said { IsSaidInTime tree.old }
    ensures core { core_at world.new ≡ core_at world.old }
    ensures reading { SameReading tree.old tree.new }
    ensures made { IfOk result (IsMade (core_at world.old) world.new tree.new (event_of event.now)) }
{
    match *event {
        Event::Begin(a) => ready_begin(world, a),
        Event::Ask(a, lock, mode) => ready_of(alloc, world, a, Asked::Ask(lock, mode)),
        Event::Fetch(a, sector) => ready_of(alloc, world, a, Asked::Fetch(sector)),
        Event::Again(a) => ready_of(alloc, world, a, Asked::Again),
        Event::Clear(a, block) => ready_of(alloc, world, a, Asked::Clear(block)),
        Event::Commit(a) => ready_of(alloc, world, a, Asked::Commit),
        Event::Answer(a) => ready_answer(alloc, world, a),
        Event::Give(a, lock) => Ok(ready_give(world, a, lock)),
        Event::Issue(by, sector) => ready_issue_by(alloc, world, by, sector),
        Event::Doom(a) => ready_of(alloc, world, a, Asked::Doom),
        Event::Resume(a) => ready_resume(alloc, world, a),
        Event::Arrive(ticket) => ready_arrive(world, ticket),
        Event::Lose(ticket) => ready_lose(world, ticket),
        Event::Die(a) => ready_die(alloc, world, a),
        Event::Renew(a) => Ok(ready_renew(world, a)),
        Event::Tick => ready_clock(alloc, world, tree),
        Event::Recover(dead, by) => ready_recover(alloc, world, dead, by),
        Event::Load(by, slot) => ready_load(world, by, slot),
        Event::Look(by, sector) => ready_look(world, by, sector),
        Event::Finish(by) => ready_finish(alloc, world, by),
        Event::HostLine(number) => ready_host_line(alloc, world, number),
        Event::Close(a) => Ok(ready_close(world, a)),
        Event::Read(sector) => ready_read(world, tree, sector),
        Event::Show(place) => ready_show(alloc, world, tree, place),
        Event::End => ready_end(alloc, world, tree),
    }
}

/// Makes ready what an event needs, with what it asks of the outside. `None` exactly where the event may not happen. The core is the same, whatever the answer. Its one refusal is want of
/// memory, which it says too where the event couldn't be carried out: a line that can't be planned, a record or a change that doesn't fit what the log and the cache have, a write that its
/// party's recovery hasn't issued. None of these comes in a run.
pub fn ready(
    alloc: Global,
    world: &mut World,
    tree: &mut HostTree,
    event: &Event,
) -> Result<Option<Made>, NoMemory>
    requires disk { tree.old.segments ≡ world.old.parties.segments }
    requires said { IsSaidInTime tree.old }
    ensures core { core_at world.new ≡ core_at world.old }
    ensures reading { SameReading tree.old tree.new }
    ensures made { IfOk result (Makes world.new tree.new (event_of event.now)) }
{
    if world.is_over() {
        return Ok(None);
    }
    ready_going(alloc, world, tree, event)
}
