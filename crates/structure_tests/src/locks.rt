// A lock table's calls by two servers, the log of a dead one, and the lists in which a server tells what it has.
use frang_base::{LockId, Mode, NoMemory, ServerId};
use lock_definitions::{LockList, LogHold, LogList};
use lock_table::{AskedFor, LockTable, LogTaken, Wanted};
use std::alloc::Global;
use std::process::Abort;
use std::test::Fail;

const NODE: LockId = LockId::Node(1);

// What a server does with a table, for the node, and what that answers.
#[derive(Clone, Copy)]
enum Step {
    Reserve,
    Want(Mode, Wanted),
    Held(Option<Mode>),
    IsWished(Mode, bool),
    IsFree(Mode, bool),
    Revokes(&'static [(LockId, AskedFor)]),
    AskedFor(Option<AskedFor>),
    AskedAt(usize, Option<(LockId, AskedFor)>),
    IsUnheld(bool),
    HasPressed(bool),
    // A segment is wanted sole, and so granted.
    TakeSegment(u32),
    // Of the first three segments, but for these.
    NextSegment(&'static [(LockId, Mode)], Option<u32>),
    Downgrade,
    Release,
    // The log of this server is taken at a tick, until another.
    TakeLog(ServerId, u64, u64, Result<(), LogTaken>),
    Extend(u64),
    LogHold(ServerId, Option<LogHold>),
    Clear,
}

fn reserve(table: &mut LockTable, server: ServerId) -> Result<bool, NoMemory> {
    if server.0 >= 16 {
        return Ok(false);
    }
    table.reserve(server, NODE)?;
    Ok(true)
}

fn wants(
    table: &mut LockTable,
    server: ServerId,
    mode: Mode,
    answer: Wanted,
) -> Result<bool, NoMemory> {
    if server.0 >= 16 {
        return Ok(false);
    }
    Ok(table.want(server, NODE, mode)? == answer)
}

fn takes(table: &mut LockTable, server: ServerId, lock: LockId) -> Result<bool, NoMemory> {
    if server.0 >= 16 {
        return Ok(false);
    }
    Ok(table.want(server, lock, Mode::Sole)? == Wanted::Granted)
}

fn is_asked(
    table: &LockTable,
    server: ServerId,
    asked: &[(LockId, AskedFor)],
) -> Result<bool, NoMemory> {
    Ok(table.revokes(server)?.as_slice() == asked)
}

fn asked_for(table: &LockTable, server: ServerId) -> Option<AskedFor> {
    if server.0 >= 16 {
        return None;
    }
    table.asked_for(server, NODE)
}

fn downgrade(table: &mut LockTable, server: ServerId) -> bool {
    match table.held(server, NODE) {
        Some(Mode::Sole) => {
            table.downgrade(server, NODE);
            true
        }
        _ => false,
    }
}

fn release(table: &mut LockTable, server: ServerId) -> bool {
    match table.held(server, NODE) {
        Some(_) => {
            table.release(server, NODE);
            true
        }
        None => false,
    }
}

fn extend(table: &mut LockTable, server: ServerId, expiry: u64) -> bool {
    table.extend(server, expiry);
    true
}

fn clear(table: &mut LockTable, server: ServerId) -> bool {
    table.clear(server);
    true
}

// The step is made, and answered so.
fn is_answered(table: &mut LockTable, server: ServerId, step: Step) -> Result<bool, NoMemory> {
    Ok(match step {
        Step::Reserve => reserve(table, server)?,
        Step::Want(mode, answer) => wants(table, server, mode, answer)?,
        Step::Held(held) => table.held(server, NODE) == held,
        Step::IsWished(mode, wished) => table.is_wished(server, NODE, mode) == wished,
        Step::IsFree(mode, free) => table.is_free(server, NODE, mode) == free,
        Step::Revokes(asked) => is_asked(table, server, asked)?,
        Step::AskedFor(asked) => asked_for(table, server) == asked,
        Step::AskedAt(place, asked) => table.asked_at(server, place) == asked,
        Step::IsUnheld(unheld) => table.is_unheld(NODE) == unheld,
        Step::HasPressed(pressed) => table.has_pressed(server) == pressed,
        Step::TakeSegment(segment) => takes(table, server, LockId::Segment(segment))?,
        Step::NextSegment(set, next) => table.next_segment(server, 3, set) == next,
        Step::Downgrade => downgrade(table, server),
        Step::Release => release(table, server),
        Step::TakeLog(dead, now, expiry, answer) => {
            table.take_log(dead, server, now, expiry) == answer
        }
        Step::Extend(expiry) => extend(table, server, expiry),
        Step::LogHold(dead, hold) => table.log_hold(dead) == hold,
        Step::Clear => clear(table, server),
    })
}

// The first step that isn't answered so.
fn unanswered(
    table: &mut LockTable,
    steps: &[(ServerId, Step)],
) -> Result<Option<usize>, NoMemory> {
    for (place, (server, step)) in steps.iter().enumerate() {
        if !is_answered(table, *server, *step)? {
            return Ok(Some(place));
        }
    }
    Ok(None)
}

fn first_unanswered(alloc: Global, steps: &[(ServerId, Step)]) -> Result<Option<usize>, NoMemory> {
    let mut table = LockTable::new(alloc);
    unanswered(&mut table, steps)
}

// A new table answers each step.
fn expect(rt: &impl Abort, alloc: Global, steps: &[(ServerId, Step)]) -> Result<(), Fail> {
    let place = first_unanswered(alloc, steps)?;
    assert!(rt; place.is_none(), "step {place:?}");
    Ok(())
}

const FIRST: ServerId = ServerId(0);

const SECOND: ServerId = ServerId(1);

static SHARED: [(ServerId, Step); 27] = [
    (FIRST, Step::IsUnheld(true)),
    (FIRST, Step::Reserve),
    (FIRST, Step::Want(Mode::Sole, Wanted::Granted)),
    (FIRST, Step::IsUnheld(false)),
    (FIRST, Step::HasPressed(false)),
    (
        SECOND,
        Step::Want(Mode::Shared, Wanted::Wait { holders: 1 }),
    ),
    (FIRST, Step::Revokes(&[(NODE, AskedFor::Downgrade)])),
    (FIRST, Step::HasPressed(true)),
    (SECOND, Step::HasPressed(false)),
    (FIRST, Step::AskedFor(Some(AskedFor::Downgrade))),
    (FIRST, Step::AskedAt(0, Some((NODE, AskedFor::Downgrade)))),
    (FIRST, Step::AskedAt(1, None)),
    (SECOND, Step::IsWished(Mode::Shared, true)),
    (SECOND, Step::IsFree(Mode::Shared, false)),
    (FIRST, Step::Held(Some(Mode::Sole))),
    (FIRST, Step::Downgrade),
    (SECOND, Step::IsFree(Mode::Shared, true)),
    (SECOND, Step::Want(Mode::Shared, Wanted::Granted)),
    (FIRST, Step::Revokes(&[])),
    (SECOND, Step::Want(Mode::Sole, Wanted::Wait { holders: 1 })),
    (FIRST, Step::Revokes(&[(NODE, AskedFor::Release)])),
    // it is asked, and held shared
    (FIRST, Step::HasPressed(false)),
    (FIRST, Step::Held(Some(Mode::Shared))),
    (FIRST, Step::Release),
    (SECOND, Step::Want(Mode::Sole, Wanted::Granted)),
    (SECOND, Step::Clear),
    (SECOND, Step::Held(None)),
];

#[test]
fn a_downgrade_lets_a_shared_wish_in(rt: HostRuntime) -> Result<(), Fail> {
    expect(&rt, rt.alloc(), &SHARED)
}

static SEGMENTS: [(ServerId, Step); 8] = [
    (FIRST, Step::NextSegment(&[], Some(0))),
    (SECOND, Step::TakeSegment(0)),
    // the least that nobody holds, and then the least that it holds itself
    (FIRST, Step::NextSegment(&[], Some(1))),
    (FIRST, Step::TakeSegment(2)),
    (FIRST, Step::NextSegment(&[], Some(2))),
    (
        FIRST,
        Step::NextSegment(&[(LockId::Segment(2), Mode::Sole)], Some(1)),
    ),
    // all others are held by others
    (
        FIRST,
        Step::NextSegment(
            &[
                (NODE, Mode::Shared),
                (LockId::Segment(1), Mode::Sole),
                (LockId::Segment(2), Mode::Sole),
            ],
            Some(0),
        ),
    ),
    (
        FIRST,
        Step::NextSegment(
            &[
                (LockId::Segment(0), Mode::Sole),
                (LockId::Segment(1), Mode::Sole),
                (LockId::Segment(2), Mode::Sole),
            ],
            None,
        ),
    ),
];

#[test]
fn a_line_takes_its_next_segment(rt: HostRuntime) -> Result<(), Fail> {
    expect(&rt, rt.alloc(), &SEGMENTS)
}

const DEAD: ServerId = ServerId(3);

const TAKER: ServerId = ServerId(2);

const UNTIL_40: LogTaken = LogTaken {
    by: TAKER,
    expiry: 40,
};

const UNTIL_50: LogTaken = LogTaken {
    by: TAKER,
    expiry: 50,
};

const HELD_TO_50: LogHold = LogHold {
    by: TAKER,
    expiry: 50,
};

static TAKEN: [(ServerId, Step); 10] = [
    (TAKER, Step::TakeLog(DEAD, 10, 40, Ok(()))),
    (ServerId::HOST, Step::TakeLog(DEAD, 40, 70, Err(UNTIL_40))),
    (TAKER, Step::Extend(50)),
    (TAKER, Step::LogHold(DEAD, Some(HELD_TO_50))),
    (ServerId::HOST, Step::TakeLog(DEAD, 50, 80, Err(UNTIL_50))),
    (TAKER, Step::TakeLog(DEAD, 50, 80, Ok(()))),
    (ServerId::HOST, Step::TakeLog(DEAD, 81, 111, Ok(()))),
    (DEAD, Step::Clear),
    (TAKER, Step::LogHold(DEAD, None)),
    (TAKER, Step::TakeLog(DEAD, 81, 111, Ok(()))),
];

#[test]
fn a_log_is_taken_until_its_takers_lease_ends(rt: HostRuntime) -> Result<(), Fail> {
    expect(&rt, rt.alloc(), &TAKEN)
}

fn are_locks_kept(alloc: Global) -> Result<bool, NoMemory> {
    let mut locks = LockList::new(alloc);
    locks.push((LockId::Node(1), Mode::Sole))?;
    locks.push((LockId::Log(0), Mode::Shared))?;
    let is_copied = locks.try_copy()?.as_slice() == locks.as_slice();
    Ok(is_copied && locks.get(1) == Some(&(LockId::Log(0), Mode::Shared)))
}

fn are_logs_kept(alloc: Global) -> Result<bool, NoMemory> {
    let mut logs = LogList::new(alloc);
    logs.push((ServerId(3), 40))?;
    Ok(logs.try_copy()?.as_slice() == [(ServerId(3), 40)].as_slice() && logs.len() == 1)
}

#[test]
fn lists_keep_what_is_pushed(rt: HostRuntime) -> Result<(), Fail> {
    assert!(rt; are_locks_kept(rt.alloc())?);
    assert!(rt; are_logs_kept(rt.alloc())?);
    Ok(())
}
