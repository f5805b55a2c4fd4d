// The places of two servers and the host in a script of eight lines, and the ticks that pass before each number of another.
use frang_base::{HostOp, Line, NoMemory, Op, Script, ServerId, What};
use script_lang::read_script;
use script_places::{Places, ascends};
use std::alloc::Global;
use std::process::Abort;
use std::test::Fail;

const HOST: ServerId = ServerId::HOST;

const FIRST: ServerId = ServerId(0);

const SECOND: ServerId = ServerId(1);

// By line: its number and whose it is.
static LINES: [(u32, ServerId); 8] = [
    (1, FIRST),
    (2, SECOND),
    (4, HOST),
    (5, SECOND),
    (7, FIRST),
    (8, HOST),
    (9, HOST),
    (12, FIRST),
];

// What is asked of the places, or done with them.
#[derive(Clone, Copy)]
enum Step {
    // The number of a party's next line.
    Next(ServerId, Option<u32>),
    Answer(ServerId),
    IsAnswered(u32, bool),
    HostsAnswered(u32, bool),
    EarlierAnswered(u32, bool),
    IsWaitedFor(bool),
    IsAllAnswered(bool),
    Pass(u32),
    HasPassed(u32, bool),
}

fn script_of(alloc: Global) -> Result<Script, NoMemory> {
    let mut script = Script::new(alloc);
    for (number, who) in &LINES {
        let what = if who.0 == HOST.0 {
            What::Host(HostOp::Barrier)
        } else {
            What::Server(Op::Sync)
        };
        script.push(Line {
            number: *number,
            who: *who,
            what,
        })?;
    }
    Ok(script)
}

fn next(places: &Places, who: ServerId) -> Option<u32> {
    let line = places.next(who)?;
    Some(line.number)
}

// The next line of a party is answered, where there is one.
fn answer(places: &mut Places, who: ServerId) -> bool {
    let number = match places.next(who) {
        Some(line) => line.number,
        None => return false,
    };
    places.answer(who, number);
    true
}

fn pass(places: &mut Places, number: u32) -> bool {
    places.pass(number);
    true
}

// The step is made, and answered so.
fn is_answered(places: &mut Places, step: Step) -> bool {
    match step {
        Step::Next(who, number) => next(places, who) == number,
        Step::Answer(who) => answer(places, who),
        Step::IsAnswered(number, answered) => places.is_answered(number) == answered,
        Step::HostsAnswered(number, answered) => places.hosts_answered(number) == answered,
        Step::EarlierAnswered(number, answered) => places.earlier_answered(number) == answered,
        Step::IsWaitedFor(waited) => places.is_waited_for() == waited,
        Step::IsAllAnswered(answered) => places.is_all_answered() == answered,
        Step::Pass(number) => pass(places, number),
        Step::HasPassed(number, passed) => places.has_passed(number) == passed,
    }
}

static STEPS: [Step; 37] = [
    Step::Next(FIRST, Some(1)),
    Step::Next(SECOND, Some(2)),
    Step::Next(HOST, Some(4)),
    Step::Next(ServerId(2), None),
    Step::HostsAnswered(4, true),
    Step::HostsAnswered(5, false),
    Step::IsWaitedFor(false),
    Step::Answer(SECOND),
    Step::Next(SECOND, Some(5)),
    Step::IsAnswered(2, true),
    Step::IsAnswered(1, false),
    Step::EarlierAnswered(1, true),
    Step::EarlierAnswered(2, false),
    Step::Answer(FIRST),
    Step::EarlierAnswered(4, true),
    Step::EarlierAnswered(5, false),
    Step::IsWaitedFor(true),
    Step::Answer(HOST),
    Step::HostsAnswered(7, true),
    Step::HostsAnswered(9, false),
    Step::Next(HOST, Some(8)),
    Step::IsWaitedFor(false),
    Step::Answer(FIRST),
    Step::Answer(SECOND),
    Step::Next(SECOND, None),
    Step::IsWaitedFor(true),
    Step::Answer(HOST),
    Step::Answer(HOST),
    Step::Next(HOST, None),
    Step::IsWaitedFor(false),
    Step::HostsAnswered(12, true),
    Step::IsAllAnswered(false),
    Step::Pass(12),
    Step::HasPassed(12, true),
    Step::HasPassed(9, false),
    Step::Answer(FIRST),
    Step::IsAllAnswered(true),
];

// The places of the script answer each step.
fn expect(rt: &impl Abort, places: &mut Places, steps: &[Step]) {
    for (place, step) in steps.iter().enumerate() {
        assert!(rt; is_answered(places, *step), "step {place}");
    }
}

#[test]
fn parties_go_through_a_script(rt: HostRuntime) -> Result<(), Fail> {
    let script = script_of(rt.alloc())?;
    let in_order = ascends(script.as_slice());
    assert!(rt; in_order);
    let mut places = Places::new(rt.alloc(), script)?;
    expect(&rt, &mut places, &STEPS);
    Ok(())
}

// Its fourth line is none, and keeps its number.
static TICKING: &[u8] = b"0 mount\ntick 40\n0 sync\n\ntick 7\n1 mount\n";

// By number, the ticks that the lines before let pass. The last two are above each line's.
static TICKS: [(u32, Option<u64>); 9] = [
    (0, Some(0)),
    (1, Some(0)),
    (2, Some(0)),
    (3, Some(40)),
    (4, Some(40)),
    (5, Some(40)),
    (6, Some(47)),
    (7, None),
    (u32::MAX, None),
];

#[test]
fn ticks_pass_before_a_number(rt: HostRuntime) -> Result<(), Fail> {
    let script = read_script(rt.alloc(), TICKING).map_err(|_| NoMemory)?;
    let in_order = ascends(script.as_slice());
    assert!(rt; in_order);
    let places = Places::new(rt.alloc(), script)?;
    for (number, ticks) in &TICKS {
        let passed = places.ticks_before(*number);
        assert!(rt; passed == *ticks, "number {number}");
    }
    Ok(())
}
