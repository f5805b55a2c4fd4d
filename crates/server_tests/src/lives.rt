// The lives of a server, and the answers of its lines, but of those over paths.
use crate::asked::{Asked, line_of, op_of};
use frang_base::{NoMemory, Reply, ServerId};
use server_core::{
    Arming, Fate, Phase, PlainAnswer, Server, Under, answer_at_death, is_crash, is_mount,
    is_path_op, is_sync, is_unmount,
};
use std::alloc::Global;
use std::process::Abort;
use std::test::Fail;
use wal_ring::Ring;

// What becomes of a server, or is asked of it.
#[derive(Clone, Copy)]
enum Step {
    // Its log ends at 255, and it is mounted at this tick.
    Mount(u64),
    Renew(u64),
    Fail,
    Doom(Fate),
    Die(Fate),
    Resume(u64),
    TurnOff,
    Recover,
    // A line of this number begins with the answer that is fixed at first, which is this.
    Begin(u32, Asked, Option<PlainAnswer>),
    EndLine,
    Is(Phase),
    IsAnswering(bool),
    Expires(u64),
    HasFailed(bool),
    IsArmed(Option<Arming>),
    // The number of the line under way.
    Line(u32),
    // What is due where a write of its mount is in flight or not, and where it recovers a log or not.
    Due(bool, bool, Option<PlainAnswer>),
    // Whether it is clean then.
    IsClean(bool, bool, bool),
    IsSynced(bool),
    // The last number of its log, and up to which all are acknowledged.
    Log(u64, u64),
}

fn mount(alloc: Global, server: &mut Server, now: u64) -> Result<bool, NoMemory> {
    if now > 1000 {
        return Ok(false);
    }
    let ring = Ring::at(alloc, 255)?;
    server.mount(ring, now);
    Ok(true)
}

fn renew(server: &mut Server, now: u64) -> bool {
    if now > 1000 {
        return false;
    }
    server.renew(now);
    true
}

fn doom(server: &mut Server, fate: Fate) -> bool {
    if !server.is_in_mount() {
        return false;
    }
    server.doom(fate);
    true
}

fn resume(server: &mut Server, now: u64) -> bool {
    if !server.is_in_mount() || now > 1000 {
        return false;
    }
    server.resume(now);
    true
}

fn begin(
    alloc: Global,
    server: &mut Server,
    number: u32,
    asked: Asked,
    first: Option<PlainAnswer>,
) -> Result<bool, NoMemory> {
    let operation = op_of(alloc, asked);
    let fixed = server.answer_at_first(&operation);
    let under = Under::of(alloc, line_of(alloc, number, asked), &operation, fixed)?;
    let holds = fixed == first && under.fixed() == first && under.is_open() == first.is_none();
    server.begin(under);
    Ok(holds)
}

// What changes a server is done.
fn change(alloc: Global, server: &mut Server, step: Step) -> Result<bool, NoMemory> {
    match step {
        Step::Mount(now) => return mount(alloc, server, now),
        Step::Begin(number, asked, first) => return begin(alloc, server, number, asked, first),
        Step::Renew(now) => return Ok(renew(server, now)),
        Step::Doom(fate) => return Ok(doom(server, fate)),
        Step::Resume(now) => return Ok(resume(server, now)),
        Step::Fail => server.fail(),
        Step::Die(fate) => server.die(fate),
        Step::TurnOff => server.turn_off(),
        Step::Recover => server.recovered(),
        Step::EndLine => server.end_line(),
        _ => return Ok(is_so(server, step)),
    }
    Ok(true)
}

fn is(server: &Server, phase: Phase) -> bool {
    server.phase() == phase
        && server.is_off() == (phase == Phase::Off)
        && server.is_up() == (phase == Phase::Up)
        && server.is_still() == (phase == Phase::Still)
        && server.is_dead() == (phase == Phase::Dead)
        && server.is_doomed() == matches!(phase, Phase::Doomed { .. })
}

// What is asked of it is so.
fn is_so(server: &Server, step: Step) -> bool {
    match step {
        Step::Is(phase) => is(server, phase),
        Step::IsAnswering(answering) => server.is_answering() == answering,
        Step::Expires(expiry) => server.expiry() == expiry,
        Step::HasFailed(failed) => server.has_failed() == failed,
        Step::IsArmed(arming) => server.arming() == arming,
        Step::Line(number) => server.line_number() == number
            && server.under().is_some() == (number > 0),
        Step::Due(flies, recovers, answer) => server.due(flies, recovers) == answer,
        Step::IsClean(flies, recovers, clean) => server.is_clean(flies, recovers) == clean,
        Step::IsSynced(synced) => server.is_synced() == synced,
        Step::Log(last, reached) => server.last_number() == last && server.reached() == reached,
        _ => false,
    }
}

const NEITHER: Fate = Fate {
    loses: false,
    owes: false,
};

const OWES: Fate = Fate {
    loses: false,
    owes: true,
};

// A server that was never mounted answers `down`.
static UNMOUNTED: [Step; 14] = [
    Step::Is(Phase::Off),
    Step::IsAnswering(true),
    Step::Expires(0),
    Step::Log(0, 0),
    Step::Line(0),
    Step::Due(false, false, None),
    Step::Begin(4, Asked::Sync, Some(PlainAnswer::Down)),
    Step::Line(4),
    Step::Due(true, true, Some(PlainAnswer::Down)),
    Step::EndLine,
    Step::Begin(5, Asked::Mount, None),
    // its slots aren't read
    Step::Due(false, false, None),
    Step::EndLine,
    Step::IsClean(false, false, true),
];

// One that is mounted.
static MOUNTED: [Step; 24] = [
    Step::Mount(10),
    Step::Is(Phase::Up),
    Step::Expires(40),
    Step::Log(255, 255),
    Step::IsClean(false, false, true),
    Step::IsClean(true, false, false),
    Step::IsClean(false, true, false),
    Step::IsSynced(true),
    Step::Begin(4, Asked::Mount, Some(PlainAnswer::Already)),
    Step::EndLine,
    Step::Begin(5, Asked::Sync, None),
    Step::Due(true, true, Some(PlainAnswer::Ok)),
    Step::EndLine,
    Step::Begin(6, Asked::Unmount, None),
    Step::Due(true, false, None),
    Step::Due(false, true, None),
    Step::Due(false, false, Some(PlainAnswer::Ok)),
    Step::TurnOff,
    Step::Is(Phase::Off),
    Step::Line(0),
    Step::Mount(20),
    Step::Begin(7, Asked::Stat, None),
    Step::Due(false, false, None),
    Step::Line(7),
];

// One that dies with an open line: `down`, and `io` where a call failed; who owes answers `expired` until an unmount.
static DYING: [Step; 24] = [
    Step::Mount(10),
    Step::Renew(15),
    Step::Expires(45),
    Step::Begin(4, Asked::Sync, None),
    Step::Doom(OWES),
    Step::Is(Phase::Doomed { fate: OWES }),
    Step::IsAnswering(false),
    Step::Due(false, false, None),
    Step::Die(OWES),
    Step::Is(Phase::Dead),
    Step::IsArmed(None),
    Step::Expires(45),
    Step::Log(255, 255),
    Step::Due(true, true, Some(PlainAnswer::Down)),
    Step::EndLine,
    Step::Begin(5, Asked::Mount, Some(PlainAnswer::Expired)),
    Step::EndLine,
    Step::Begin(6, Asked::Unmount, Some(PlainAnswer::Ok)),
    Step::EndLine,
    Step::Recover,
    Step::Is(Phase::Off),
    Step::Log(0, 0),
    // turned off at the answer to the unmount, it owes no more
    Step::TurnOff,
    Step::Begin(7, Asked::Sync, Some(PlainAnswer::Down)),
];

// One that goes on under a new lease, with its log and its line.
static RESUMED: [Step; 9] = [
    Step::Mount(10),
    Step::Begin(4, Asked::Sync, None),
    Step::Resume(50),
    Step::Is(Phase::Up),
    Step::Expires(80),
    Step::IsArmed(None),
    Step::Log(255, 255),
    Step::Line(4),
    Step::Due(true, true, Some(PlainAnswer::Ok)),
];

static FAILING: [Step; 13] = [
    // what fails before a mount doesn't count
    Step::Fail,
    Step::HasFailed(false),
    Step::Mount(10),
    Step::Fail,
    Step::HasFailed(true),
    Step::Begin(4, Asked::Stat, None),
    Step::Doom(NEITHER),
    Step::Die(NEITHER),
    Step::Due(false, false, Some(PlainAnswer::Io)),
    Step::Recover,
    Step::HasFailed(true),
    Step::Mount(60),
    Step::HasFailed(false),
];

static CRASHING: [Step; 7] = [
    Step::Mount(10),
    Step::Fail,
    Step::Begin(4, Asked::Crash, None),
    Step::Due(false, false, None),
    Step::Doom(NEITHER),
    Step::Die(NEITHER),
    Step::Due(false, false, Some(PlainAnswer::Ok)),
];

// A server that begins off is as its steps say.
fn expect(rt: &impl Abort, alloc: Global, steps: &[Step]) -> Result<(), Fail> {
    let mut server = Server::new(alloc, ServerId(3));
    for (i, step) in steps.iter().enumerate() {
        let holds = change(alloc, &mut server, *step)?;
        assert!(rt; holds, "step {i}");
    }
    assert_eq!(rt; server.id().0, 3);
    Ok(())
}

#[test]
fn a_server_lives_as_worked_out_by_hand(rt: HostRuntime) -> Result<(), Fail> {
    let alloc = rt.alloc();
    expect(&rt, alloc, &UNMOUNTED)?;
    expect(&rt, alloc, &MOUNTED)?;
    expect(&rt, alloc, &DYING)?;
    expect(&rt, alloc, &RESUMED)?;
    expect(&rt, alloc, &FAILING)?;
    expect(&rt, alloc, &CRASHING)?;
    Ok(())
}

// Of an operation: whether it goes over paths, asks a mount, an unmount, a sync, a crash; and its answers at a death where no call failed and where one did.
type Kind = (Asked, [bool; 5], PlainAnswer, PlainAnswer);

static KINDS: [Kind; 6] = [
    (
        Asked::Stat,
        [true, false, false, false, false],
        PlainAnswer::Down,
        PlainAnswer::Io,
    ),
    (
        Asked::Mount,
        [false, true, false, false, false],
        PlainAnswer::Down,
        PlainAnswer::Io,
    ),
    (
        Asked::Unmount,
        [false, false, true, false, false],
        PlainAnswer::Down,
        PlainAnswer::Io,
    ),
    (
        Asked::Sync,
        [false, false, false, true, false],
        PlainAnswer::Down,
        PlainAnswer::Io,
    ),
    (
        Asked::Crash,
        [false, false, false, false, true],
        PlainAnswer::Ok,
        PlainAnswer::Ok,
    ),
    (
        Asked::CrashAt,
        [false; 5],
        PlainAnswer::Down,
        PlainAnswer::Io,
    ),
];

fn is_kind(alloc: Global, kind: &Kind) -> bool {
    let (asked, [path, mount, unmount, sync, crash], well, failed) = *kind;
    let operation = op_of(alloc, asked);
    is_path_op(&operation) == path
        && is_mount(&operation) == mount
        && is_unmount(&operation) == unmount
        && is_sync(&operation) == sync
        && is_crash(&operation) == crash
        && answer_at_death(false, &operation) == well
        && answer_at_death(true, &operation) == failed
}

#[test]
fn operations_are_told_apart(rt: HostRuntime) {
    for (i, kind) in KINDS.iter().enumerate() {
        assert!(rt; is_kind(rt.alloc(), kind), "kind {i}");
    }
    assert!(rt; matches!(&PlainAnswer::Mounted.reply(), Reply::Mounted));
    assert!(rt; matches!(&PlainAnswer::Expired.reply(), Reply::Expired));
}
