// What a mounted server wants written, which write it may issue next, and what its doom settles.
use crate::asked::Asked;
use crate::worker::{NUMBER, Worker, outcome_of};
use frang_base::{LockId, Mode, NoMemory, Sector};
use server_core::Fate;
use server_writes::{
    is_log_wanted, is_place_wanted, is_pressed, log_wanted_to, next_place_write, place_writes,
};
use std::alloc::Global;
use std::process::Abort;
use std::test::Fail;

const NODE: LockId = LockId::Node(1);

const OTHER: LockId = LockId::Node(2);

/// The sector of number 256 in the log of server 3: the first of its slots.
const LOGGED: u64 = 2_172_649_472;

/// The first and the last sector of small block 5.
const ZEROS: u64 = 12_884_901_928;

const LAST_ZEROS: u64 = 12_884_901_935;

// What is done with a server, or asked of it.
#[derive(Clone, Copy)]
enum Step {
    // A sector is cached under the first lock.
    Fetch(u64),
    // Sectors changed, set, freed, and moved under the second lock, at which those that are set come too.
    Commit(&'static [u64], &'static [u64], &'static [u64], &'static [u64]),
    Clear(u32),
    Begin(Asked),
    EndLine,
    WantAll,
    Want(u8, LockId, Mode),
    Fail,
    // The clock is at this tick.
    At(u64),
    Issue(u64),
    Arrive(u64),
    // The oldest records are given up.
    Reclaim,
    // The sectors under a lock leave, where none of them is dirty.
    Drop(LockId),
    // The last number of its log, and up to which all are acknowledged.
    Log(u64, u64),
    IsDirty(u64, bool),
    IsCached(u64, bool),
    IsPending(u64, bool),
    // Whether it is wanted, where the line waits for room and where not.
    IsWanted(u64, bool, bool),
    // Whether a cause wants the log, and up to which number it is wanted.
    WantsLog(bool, u64),
    // The sectors wanted in place.
    Places(&'static [u64]),
    // That which may be written next in place.
    NextPlace(Option<u64>),
    IsPressed(LockId, bool),
    // Whether a write may be issued, the arming left aside and not.
    May(u64, bool, bool),
    Next(Option<u64>),
    // Whether an issue is held back, and whether a doom may come.
    Ends(bool, bool),
    IsFate(Fate),
    IsClean(bool),
}

fn drop_under(worker: &mut Worker, lock: LockId) -> bool {
    if !worker.server.is_clean_under(lock) {
        return false;
    }
    worker.server.drop_under(lock);
    true
}

// What changes a server is done.
fn change(alloc: Global, worker: &mut Worker, step: Step) -> Result<bool, NoMemory> {
    match step {
        Step::Fetch(sector) => return worker.fetch(sector, 5, NODE),
        Step::Commit(changes, bytes, freed, moves) => {
            let outcome = outcome_of(alloc, changes, bytes, freed, moves, OTHER)?;
            return worker.commit(outcome);
        }
        Step::Clear(block) => return worker.clear(block),
        Step::Begin(asked) => return worker.begin(asked),
        Step::Want(who, lock, mode) => return worker.want(who, lock, mode),
        Step::Issue(sector) => return worker.issue(sector),
        Step::Arrive(sector) => return Ok(worker.arrive(sector)),
        Step::Drop(lock) => return Ok(drop_under(worker, lock)),
        Step::EndLine => worker.server.end_line(),
        Step::WantAll => worker.server.want_all(),
        Step::Fail => worker.server.fail(),
        Step::Reclaim => worker.server.reclaim(),
        Step::At(now) => worker.now = now,
        _ => return is_so(alloc, worker, step),
    }
    Ok(true)
}

fn is_wanted(worker: &Worker, sector: u64, waiting: bool, else_wanted: bool) -> bool {
    if worker.server.id().0 >= 16 {
        return false;
    }
    is_place_wanted(&worker.server, &worker.table, true, Sector(sector)) == waiting
        && is_place_wanted(&worker.server, &worker.table, false, Sector(sector)) == else_wanted
}

fn are_places(alloc: Global, worker: &Worker, sectors: &[u64]) -> Result<bool, NoMemory> {
    if worker.server.id().0 >= 16 {
        return Ok(false);
    }
    let writes = place_writes(alloc, &worker.server, &worker.table, false)?;
    Ok(
        writes.len() == sectors.len()
            && writes
                .iter()
                .zip(sectors)
                .all(|(write, sector)| write.sector.0 == *sector),
    )
}

fn is_next_place(worker: &Worker, sector: Option<u64>) -> bool {
    if worker.server.id().0 >= 16 {
        return false;
    }
    next_place_write(&worker.server, &worker.table, &[]) == sector.map(Sector)
}

fn may(worker: &Worker, sector: u64, issuable: bool, may: bool) -> bool {
    match worker.issuer() {
        Some(issuer) => {
            issuer.is_issuable(Sector(sector)) == issuable
                && issuer.write(Sector(sector)).is_some() == issuable
                && issuer.may_issue(Sector(sector)) == may
        }
        None => false,
    }
}

fn ends(worker: &Worker, held_back: bool, may_doom: bool) -> bool {
    match worker.issuer() {
        Some(issuer) => issuer.is_held_back() == held_back && issuer.may_doom() == may_doom,
        None => false,
    }
}

fn is_next(worker: &Worker, sector: Option<u64>) -> bool {
    match worker.issuer() {
        Some(issuer) => issuer.next_issue() == sector.map(Sector),
        None => false,
    }
}

fn is_fate(worker: &Worker, fate: Fate) -> bool {
    match worker.issuer() {
        Some(issuer) => issuer.fate() == fate,
        None => false,
    }
}

fn is_clean(worker: &Worker, clean: bool) -> bool {
    match worker.issuer() {
        Some(issuer) => issuer.is_clean() == clean,
        None => false,
    }
}

fn wants_log(worker: &Worker, wanted: bool, upto: u64) -> bool {
    is_log_wanted(&worker.server, &worker.table, false) == wanted
        && log_wanted_to(&worker.server, &worker.table, false) == upto
}

fn is_log(worker: &Worker, last: u64, reached: u64) -> bool {
    worker.server.last_number() == last
        && worker.server.reached() == reached
        && worker.server.is_all_reached() == (last == reached)
}

// What is asked of it is so.
fn is_so(alloc: Global, worker: &Worker, step: Step) -> Result<bool, NoMemory> {
    Ok(match step {
        Step::Log(last, reached) => is_log(worker, last, reached),
        Step::IsDirty(sector, dirty) => worker.server.is_dirty(Sector(sector)) == dirty,
        Step::IsCached(sector, cached) => {
            worker.server.cache().cover(Sector(sector)).is_some() == cached
        }
        Step::IsPending(sector, pending) => worker.server.is_pending(Sector(sector)) == pending,
        Step::IsWanted(sector, waiting, wanted) => is_wanted(worker, sector, waiting, wanted),
        Step::WantsLog(wanted, upto) => wants_log(worker, wanted, upto),
        Step::Places(sectors) => return are_places(alloc, worker, sectors),
        Step::NextPlace(sector) => is_next_place(worker, sector),
        Step::IsPressed(lock, pressed) => is_pressed(&worker.table, NUMBER, lock) == pressed,
        Step::May(sector, issuable, may_issue) => may(worker, sector, issuable, may_issue),
        Step::Next(sector) => is_next(worker, sector),
        Step::Ends(held_back, may_doom) => ends(worker, held_back, may_doom),
        Step::IsFate(fate) => is_fate(worker, fate),
        Step::IsClean(clean) => is_clean(worker, clean),
        _ => false,
    })
}

const NEITHER: Fate = Fate {
    loses: false,
    owes: false,
};

// A line changes sector 7, sets 9 and frees 8. All of it is flushed: the log first, and then what its mark lets go.
static FLUSHED: [Step; 40] = [
    Step::Fetch(7),
    Step::Fetch(8),
    Step::Begin(Asked::Stat),
    Step::Commit(&[7], &[9], &[8], &[7]),
    Step::Log(256, 255),
    Step::IsCached(8, false),
    Step::IsDirty(7, true),
    Step::IsDirty(9, true),
    // nothing wants them yet, but that their line's record has no room
    Step::IsWanted(7, true, false),
    Step::IsWanted(9, false, false),
    Step::WantsLog(false, 0),
    Step::Places(&[]),
    Step::Next(None),
    Step::WantAll,
    Step::IsWanted(7, true, true),
    Step::IsWanted(9, true, true),
    Step::IsWanted(8, false, false),
    Step::WantsLog(false, 256),
    Step::Places(&[7, 9]),
    // their mark isn't reached
    Step::NextPlace(None),
    Step::May(7, false, false),
    Step::May(LOGGED, true, true),
    Step::Next(Some(LOGGED)),
    Step::Issue(LOGGED),
    Step::May(LOGGED, false, false),
    Step::Next(None),
    Step::IsClean(false),
    Step::Arrive(LOGGED),
    Step::Log(256, 256),
    Step::NextPlace(Some(7)),
    Step::May(9, true, true),
    Step::Issue(7),
    // a write of it is in flight
    Step::May(7, false, false),
    Step::NextPlace(Some(9)),
    Step::Next(Some(9)),
    Step::Arrive(7),
    Step::IsDirty(7, false),
    Step::Issue(9),
    Step::Arrive(9),
    Step::IsClean(true),
];

// Where the mark isn't reached as a write arrives the sector stays dirty; here it is taken in flight and changed by a second line, whose record isn't on the disk.
static CHANGED: [Step; 15] = [
    Step::Fetch(7),
    Step::Commit(&[7], &[9], &[], &[]),
    Step::WantAll,
    Step::Issue(LOGGED),
    Step::Arrive(LOGGED),
    Step::Issue(9),
    // the same bytes, with a later mark
    Step::Fetch(6),
    Step::Commit(&[6], &[9], &[], &[]),
    Step::Log(257, 256),
    Step::Arrive(9),
    Step::IsDirty(9, true),
    Step::Places(&[7, 9]),
    Step::NextPlace(Some(7)),
    Step::May(9, false, false),
    Step::IsWanted(6, true, false),
];

// A sync wants bytes, an unmount all, a lock that is asked what is under it, a cleared block its zeros.
static CAUSES: [Step; 36] = [
    Step::Fetch(7),
    Step::Commit(&[7], &[9], &[], &[7]),
    Step::Begin(Asked::Sync),
    Step::IsWanted(7, true, false),
    Step::IsWanted(9, true, true),
    Step::WantsLog(true, 256),
    Step::Places(&[9]),
    Step::EndLine,
    Step::Begin(Asked::Unmount),
    Step::Places(&[7, 9]),
    Step::WantsLog(true, 256),
    Step::EndLine,
    Step::WantsLog(false, 0),
    Step::Want(3, OTHER, Mode::Sole),
    Step::Places(&[]),
    Step::IsPressed(OTHER, false),
    Step::Want(4, OTHER, Mode::Shared),
    Step::IsPressed(OTHER, true),
    Step::IsPressed(NODE, false),
    Step::Places(&[7, 9]),
    Step::WantsLog(true, 256),
    Step::Issue(LOGGED),
    Step::Arrive(LOGGED),
    Step::Next(Some(7)),
    Step::Issue(7),
    Step::Issue(9),
    Step::Arrive(9),
    Step::Arrive(7),
    Step::Next(None),
    Step::Drop(OTHER),
    Step::IsCached(9, false),
    Step::Clear(5),
    Step::IsPending(ZEROS, true),
    Step::IsWanted(LAST_ZEROS, true, true),
    Step::WantsLog(true, 256),
    Step::Next(Some(ZEROS)),
];

// A block's zeros are pending until they are acknowledged.
static CLEARED: [Step; 8] = [
    Step::Clear(5),
    Step::Issue(LAST_ZEROS),
    Step::NextPlace(Some(ZEROS)),
    Step::Arrive(LAST_ZEROS),
    Step::IsPending(LAST_ZEROS, false),
    Step::IsPending(ZEROS, true),
    Step::IsDirty(ZEROS, true),
    Step::IsClean(false),
];

// None is issued by who failed, or past the stamp.
static BOUND: [Step; 14] = [
    Step::Fetch(7),
    Step::Commit(&[7], &[], &[], &[]),
    Step::WantAll,
    Step::At(25),
    Step::May(LOGGED, true, true),
    Step::At(26),
    Step::May(LOGGED, false, false),
    Step::Next(None),
    Step::At(10),
    Step::Ends(false, false),
    Step::Fail,
    Step::May(LOGGED, false, false),
    Step::Ends(false, true),
    Step::IsFate(NEITHER),
];

// A crash without a number dooms it, and it owes nothing.
static CLEAN: [Step; 7] = [
    Step::Begin(Asked::Crash),
    Step::Ends(false, true),
    Step::IsFate(NEITHER),
    Step::EndLine,
    // only a stalled one is past its lease
    Step::At(41),
    Step::Ends(false, false),
    Step::IsFate(NEITHER),
];

// The oldest records are given up as far as their sectors are issued.
static RECLAIMED: [Step; 12] = [
    Step::Fetch(7),
    Step::Commit(&[7], &[], &[], &[]),
    Step::Reclaim,
    Step::IsWanted(7, true, false),
    Step::WantAll,
    Step::Issue(LOGGED),
    Step::Arrive(LOGGED),
    Step::Issue(7),
    Step::Arrive(7),
    Step::IsWanted(7, true, false),
    Step::Reclaim,
    Step::IsWanted(7, false, false),
];

// A mounted server is as its steps say.
fn expect(rt: &impl Abort, alloc: Global, steps: &[Step]) -> Result<(), Fail> {
    let mut worker = Worker::new(alloc)?;
    for (i, step) in steps.iter().enumerate() {
        let holds = change(alloc, &mut worker, *step)?;
        assert!(rt; holds, "step {i}");
    }
    Ok(())
}

#[test]
fn what_a_server_wants_goes_as_worked_out_by_hand(rt: HostRuntime) -> Result<(), Fail> {
    let alloc = rt.alloc();
    expect(&rt, alloc, &FLUSHED)?;
    expect(&rt, alloc, &CHANGED)?;
    expect(&rt, alloc, &CAUSES)?;
    expect(&rt, alloc, &CLEARED)?;
    expect(&rt, alloc, &RECLAIMED)?;
    Ok(())
}

#[test]
fn what_may_end_a_server_is_as_worked_out_by_hand(rt: HostRuntime) -> Result<(), Fail> {
    let alloc = rt.alloc();
    expect(&rt, alloc, &BOUND)?;
    expect(&rt, alloc, &CLEAN)?;
    Ok(())
}
