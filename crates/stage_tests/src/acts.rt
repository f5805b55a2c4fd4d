// What is done with a server and its line, by words.
ghost use Rattle.std.specs.Prelude.{◌≡◌, IfOk, IfSome, true};
ghost use Rattle.core_definitions.specs.Flights.{OfLog};
ghost use Rattle.core_definitions.specs.Servers.{is_in_mount};
ghost use Rattle.line_stages.specs.Agains.{IsFirstWhereAnew};
ghost use Rattle.server_core.specs.Effects.{IsNext};

use crate::told::{again_told, told};
use crate::words::{DISK_SEGMENTS, lock_of, sector_of};
use crate::work::{NUMBER, OTHER, Work};
use frang_base::{Block, NoMemory, Reply, Sector};
use kept_plans::{KeptEnd, KeptPlan};
use line_stages::{Again, asked_next, cleared_next, first_needed, go_again, ready_again, stage_of};
use petal_disk::Purpose;
use plan_disks::{add_reply, put_sectors};
use server_core::{Outcome, Server};
use std::alloc::Global;
use test_tables::split;

/// What is told of the line once these acts, parted by `;`, are done; or the first that can't be.
pub(crate) fn done(work: &mut Work, acts: &str) -> Result<String, NoMemory> {
    for act in acts.split(';') {
        let act = act.trim();
        if !is_done(work, act)? {
            return Ok(format!(in work.alloc; "not {act}")?);
        }
    }
    told(work)
}

// An act is done, and then what is kept is made again, but where that was to be forgotten.
fn is_done(work: &mut Work, act: &str) -> Result<bool, NoMemory> {
    if act == "forget" {
        work.forget();
        return Ok(true);
    }
    let holds = is_any(work, act)?;
    work.refresh()?;
    Ok(holds)
}

// One that leaves what the plan of the line is made over, or another.
fn is_any(work: &mut Work, act: &str) -> Result<bool, NoMemory> {
    let (verb, rest) = split(act, " ");
    match verb {
        "keep" => Ok(true),
        "refuse" => Ok(is_refused(work)),
        "ask" => ask(work),
        "other" => other(work, rest),
        "leave" => leave(work, rest),
        "log" => Ok(log(work)),
        "put" => put(work, rest),
        _ => is_own(work, act),
    }
}

// One that changes what the plan of the line is made over.
fn is_own(work: &mut Work, act: &str) -> Result<bool, NoMemory> {
    let holds = is_changing(work, act)?;
    work.forget();
    Ok(holds)
}

fn is_changing(work: &mut Work, act: &str) -> Result<bool, NoMemory> {
    let (verb, rest) = split(act, " ");
    match verb {
        "fetch" => fetch(work),
        "give" => give(work, rest),
        "lay" => lay(work, rest),
        "cache" => cache(work, rest),
        "see" => see(work, rest),
        "join" => join(work, rest),
        _ => is_going(work, act),
    }
}

fn is_going(work: &mut Work, act: &str) -> Result<bool, NoMemory> {
    let (verb, rest) = split(act, " ");
    match verb {
        "again" => again(work, rest),
        "clear" => clear(work),
        "commit" => commit(work, rest),
        _ => begin(work, act),
    }
}

// The line can't be planned.
fn is_refused(work: &Work) -> bool {
    work.planned().is_err()
}

fn begin(work: &mut Work, line: &str) -> Result<bool, NoMemory> {
    work.begin(line)?;
    Ok(true)
}

// The lock for which the line asks next is asked for.
fn ask(work: &mut Work) -> Result<bool, NoMemory> {
    let stage = stage_of(&work.table, &work.server, &work.plan);
    match asked_next(&stage, &work.table, &work.server) {
        Some((lock, mode)) => {
            work.want(NUMBER, lock, mode)?;
            Ok(true)
        }
        None => Ok(false),
    }
}

// Another server wants a lock.
fn other(work: &mut Work, word: &str) -> Result<bool, NoMemory> {
    let (lock, mode) = lock_of(word)?;
    work.want(OTHER, lock, mode)?;
    Ok(true)
}

// It gives up the lock.
fn leave(work: &mut Work, word: &str) -> Result<bool, NoMemory> {
    let (lock, _) = lock_of(word)?;
    Ok(work.release(OTHER, lock))
}

// The sector that the line needs first is read.
fn fetch(work: &mut Work) -> Result<bool, NoMemory> {
    let stage = stage_of(&work.table, &work.server, &work.plan);
    match first_needed(&stage, &work.server) {
        Some((sector, cover)) => work.fetch(sector, cover),
        None => Ok(false),
    }
}

// The server gives up a lock under which nothing is dirty.
fn give(work: &mut Work, word: &str) -> Result<bool, NoMemory> {
    let (lock, _) = lock_of(word)?;
    if !work.server.is_clean_under(lock) {
        return Ok(false);
    }
    work.server.drop_under(lock);
    Ok(work.release(NUMBER, lock))
}

// The disk changes.
fn lay(work: &mut Work, sectors: &str) -> Result<bool, NoMemory> {
    put_sectors(&mut work.disk, sectors)?;
    Ok(true)
}

// A sector of the disk is cached under a lock, as by another line.
fn cache(work: &mut Work, words: &str) -> Result<bool, NoMemory> {
    let (sector, lock) = split(words, " ");
    let (lock, _) = lock_of(lock)?;
    work.fetch(sector_of(sector)?, lock)
}

// The line has seen a sector of the disk.
fn see(work: &mut Work, word: &str) -> Result<bool, NoMemory> {
    let sector = sector_of(word)?;
    let Some(under) = work.server.under() else {
        return Ok(false);
    };
    let set = under.set().try_copy()?;
    let seen = under.seen().with_more(&work.disk, &[sector])?;
    work.server.line_grown(set, seen);
    Ok(true)
}

// A lock joins the set of the line.
fn join(work: &mut Work, word: &str) -> Result<bool, NoMemory> {
    let need = lock_of(word)?;
    let Some(under) = work.server.under() else {
        return Ok(false);
    };
    let set = under.set().grown(&[need])?;
    let seen = under.seen().try_copy()?;
    work.server.line_grown(set, seen);
    Ok(true)
}

// The line goes on again, with this.
fn again(work: &mut Work, wanted: &str) -> Result<bool, NoMemory> {
    match ready(work)? {
        Some(again) => goes(work, again, wanted),
        None => Ok(false),
    }
}

fn ready(work: &Work) -> Result<Option<Again>, NoMemory>
    ensures { IfOk result (λ again. IfSome again IsFirstWhereAnew) }
{
    ready_again(
        work.alloc,
        &work.table,
        &work.server,
        DISK_SEGMENTS,
        &work.plan,
    )
}

fn goes(work: &mut Work, again: Again, wanted: &str) -> Result<bool, NoMemory>
    requires { IsFirstWhereAnew again }
{
    let is_wanted = is_told(work.alloc, &again, wanted);
    go_again(&mut work.server, again);
    is_wanted
}

fn is_told(alloc: Global, again: &Again, wanted: &str) -> Result<bool, NoMemory> {
    let text = again_told(alloc, again)?;
    Ok(text.as_str() == wanted)
}

// The block that the line clears is cleared.
fn clear(work: &mut Work) -> Result<bool, NoMemory> {
    let stage = stage_of(&work.table, &work.server, &work.plan);
    let Some(block) = cleared_next(&stage) else {
        return Ok(false);
    };
    work.server.reserve_block()?;
    work.server.clear(block);
    Ok(true)
}

// A sector of its log is issued and acknowledged.
fn log_sector(server: &mut Server, number: u64, block: &Block)
    requires { IsNext server.old.server.ring (OfLog number) }
{
    let purpose = Purpose::OfLog(number);
    server.issued(purpose);
    // Which sector it is doesn't count for one of a log.
    server.acknowledged(Sector(0), block, purpose);
}

// The next sector of the log is issued, and acknowledged.
fn log(work: &mut Work) -> bool {
    let Some(next) = work.server.next_log_sector() else {
        return false;
    };
    log_sector(&mut work.server, next.0, &next.1);
    true
}

// Writes of these sectors in place, as they are cached, are acknowledged.
fn put(work: &mut Work, words: &str) -> Result<bool, NoMemory> {
    for word in words.split_whitespace() {
        let sector = sector_of(word)?;
        if !is_put(&mut work.server, sector) {
            return Ok(false);
        }
    }
    Ok(true)
}

fn is_put(server: &mut Server, sector: Sector) -> bool {
    let Some(cover) = server.cache().cover(sector) else {
        return false;
    };
    let Some(block) = server.cache().get(sector) else {
        return false;
    };
    let block = *block;
    server.acknowledged(sector, &block, Purpose::InPlace(cover));
    true
}

// The line is committed, and answers this.
fn commit(work: &mut Work, wanted: &str) -> Result<bool, NoMemory> {
    match outcome_in(work.plan.take()) {
        Some(outcome) => commits(work, outcome, wanted),
        None => Ok(false),
    }
}

fn commits(work: &mut Work, outcome: Outcome, wanted: &str) -> Result<bool, NoMemory> {
    if !work.server.is_in_mount() {
        return Ok(false);
    }
    let reply = committed(&mut work.server, outcome)?;
    answers(work.alloc, &reply, wanted)
}

fn committed(server: &mut Server, outcome: Outcome) -> Result<Reply, NoMemory>
    requires { is_in_mount server.old.server.phase ≡ true }
{
    match server.reserve_commit(&outcome) {
        Ok(()) => Ok(server.commit(outcome)),
        Err(_) => Err(NoMemory),
    }
}

fn answers(alloc: Global, reply: &Reply, wanted: &str) -> Result<bool, NoMemory> {
    let mut text = String::new(alloc);
    add_reply(alloc, &mut text, reply)?;
    Ok(text.as_str() == wanted)
}

// What a plan comes to. `None` where its line isn't finished.
fn outcome_in(plan: Option<KeptPlan>) -> Option<Outcome> {
    match plan {
        Some(KeptPlan::Planned(plan)) => outcome_at(plan.end),
        Some(KeptPlan::Moved) => None,
        None => None,
    }
}

fn outcome_at(end: KeptEnd) -> Option<Outcome> {
    match end {
        KeptEnd::Done(done) => Some(done.outcome),
        KeptEnd::Need { .. } => None,
        KeptEnd::Segments => None,
        KeptEnd::Clear { .. } => None,
    }
}
