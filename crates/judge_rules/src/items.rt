// What each said line adds to the history, found by the number of the line that it answers.
ghost use Rattle.std.specs.Prelude.{◌≡◌, ◌<◌, IfOk, IfSome, true};
ghost use Rattle.tree_definitions.specs.Live.{item_of, item_of_line, item_of_what, line_of, number_of, script_time, time_in};
ghost use Rattle.transcript_rules.specs.Tells.{AscendFrom};
ghost use Rattle.frang_base.specs.declared.limits.TheConstants.{RUN_TICKS_END};
ghost use Rattle.tree_model.specs.Replayed.{item_within};
ghost use Rattle.judge_rules.specs.Scripts.{CanJudge, Finds, items_of, times_of, what_within};

use frang_base::limits::RUN_TICKS_END;
use frang_base::{Line, NoMemory, Op, OpNo, Reply, Said, ServerId, What};
use script_definitions::ticks_of;
use std::alloc::Global;
use tree_definitions::{Entry, Item};

// The number of the run.
const RUN: u32 = 1;

/// The times of a script's lines.
pub fn times_of(alloc: Global, script: &[Line]) -> Result<Vec<u64>, NoMemory>
    requires { CanJudge script.now }
    ensures { IfOk result (λ times. times.items ≡ times_of script.now) }
{
    let mut times = Vec::new(alloc);
    let mut ticks = 0u64;
    for line in script {
        times.push(ticks)?;
        ticks += u64::from(ticks_of(&line.what));
    }
    Ok(times)
}

// The place of the line with a number, or where it would be.
fn search(script: &[Line], number: u32) -> Result<usize, usize>
    requires { AscendFrom 0 script.now }
    ensures { Finds script.now number result }
{
    script.binary_search_by_key(&number, |line| line.number)
}

// The entry of an operation and its reply.
fn entry_of(
    server: ServerId,
    number: u32,
    ticks: u64,
    op: &Op,
    reply: &Reply,
) -> Result<Entry, NoMemory>
    requires { ticks < RUN_TICKS_END }
    ensures { IfOk result (λ entry. entry ≡ record { server = server; number = record { 0 = number_of RUN number }; when = time_in RUN ticks; op = op.now; reply = reply.now }) }
{
    Ok(Entry {
        server,
        number: OpNo::of(RUN, number),
        when: u64::from(RUN) * RUN_TICKS_END + ticks,
        op: op.try_copy()?,
        reply: reply.try_copy()?,
    })
}

// What an answer to a line that is there adds.
fn item_of_what(
    server: ServerId,
    number: u32,
    ticks: u64,
    what: &What,
    reply: &Reply,
) -> Result<Option<Item>, NoMemory>
    requires few { ticks < RUN_TICKS_END }
    requires within { what_within what.now ≡ true }
    ensures is { IfOk result (λ item. items_of item ≡ item_of_what RUN server reply.now number ticks what.now) }
    ensures within { IfOk result (λ item. IfSome item (λ i. item_within i ≡ true)) }
{
    match what {
        What::Server(op) => Ok(Some(Item::Did(entry_of(server, number, ticks, op, reply)?))),
        What::Host(_) => Ok(None),
    }
}

// What an answer adds.
fn item_of_answer(
    script: &[Line],
    times: &[u64],
    server: ServerId,
    number: u32,
    reply: &Reply,
) -> Result<Option<Item>, NoMemory>
    requires script { CanJudge script.now }
    requires times { times.now ≡ times_of script.now }
    ensures is { IfOk result (λ item. items_of item ≡ item_of_line RUN server reply.now number (script_time script.now number) (line_of script.now number)) }
    ensures within { IfOk result (λ item. IfSome item (λ i. item_within i ≡ true)) }
{
    match search(script, number) {
        Ok(place) => item_of_what(server, number, times[place], &script[place].what, reply),
        Err(_) => Ok(None),
    }
}

/// What a said line adds to the history of a script, whose lines have these times.
pub fn item_of(script: &[Line], times: &[u64], said: &Said) -> Result<Option<Item>, NoMemory>
    requires script { CanJudge script.now }
    requires times { times.now ≡ times_of script.now }
    ensures is { IfOk result (λ item. items_of item ≡ item_of script.now RUN said.now) }
    ensures within { IfOk result (λ item. IfSome item (λ i. item_within i ≡ true)) }
{
    match said {
        Said::Answer {
            server,
            line,
            reply,
        } => item_of_answer(script, times, *server, *line, reply),
        Said::Recovered { server, keeps } => Ok(Some(Item::Recovered {
            server: *server,
            keeps: *keeps,
        })),
        Said::Dead { .. }
        | Said::Recovering { .. }
        | Said::Renewed { .. }
        | Said::Node { .. }
        | Said::Redo { .. }
        | Said::Backup { .. }
        | Said::Locks { .. }
        | Said::Shown(_)
        | Said::End => Ok(None),
    }
}
