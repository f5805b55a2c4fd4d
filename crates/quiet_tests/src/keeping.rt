// Puts, gets and says over an outside that keeps the lines, and what it gives back.
ghost use Rattle.std.specs.Prelude.{◌≡◌, [], IfOk};

use frang_base::{Sector, ServerId, Text};
use frang_outside::{Act, Failed, FaultyOutside, MemOutside, Outside, Put, PutFault, Taken};
use quiet_outside::Quiet;
use std::alloc::{AllocError, Global};
use std::process::Abort;
use std::test::Fail;

// A put of server 1 that may come until tick 20.
fn put_of(sector: u64, byte: u8, now: u64) -> Put {
    Put {
        server: ServerId(1),
        behalf: ServerId(1),
        stamp: 20,
        now,
        sector: Sector(sector),
        bytes: [byte; 512],
    }
}

// What is done, and what it answers.
#[derive(Clone, Copy)]
enum Step {
    // A sector gets this byte at this tick.
    Put(u64, u8, u64, Result<Taken, PutFault>),
    // The sector has this byte.
    Get(u64, u8),
    // A get of the sector fails.
    Lack(u64),
    // A line of this byte is said.
    Say(u8),
}

fn is_answered<O: Outside>(out: &mut O, step: Step) -> bool {
    match step {
        Step::Put(sector, byte, now, answer) => out.put(&put_of(sector, byte, now)) == answer,
        Step::Get(sector, byte) => out.get(ServerId(1), Sector(sector)) == Ok([byte; 512]),
        Step::Lack(sector) => out.get(ServerId(1), Sector(sector)) == Err(Failed),
        Step::Say(byte) => out.say(&[byte]) == Ok(()),
    }
}

fn expect<O: Outside>(rt: &impl Abort, out: &mut O, steps: &[Step]) {
    for (place, step) in steps.iter().enumerate() {
        assert!(rt; is_answered(out, *step), "step {place}");
    }
}

// The acts are these puts of sectors and bytes with their answers, in their order.
fn are_puts(acts: &[Act], puts: &[(u64, u8, Taken)]) -> bool {
    acts.len() == puts.len()
        && acts.iter().zip(puts).all(|(act, (sector, byte, answer))| match act {
            Act::Put(put, taken) => {
                put.sector == Sector(*sector) && put.bytes == [*byte; 512] && *taken == *answer
            }
            Act::Said(_) => false,
        })
}

// The lines are of these bytes, one each, in their order.
fn are_lines(lines: &[Text], bytes: &[u8]) -> bool {
    lines.len() == bytes.len()
        && lines.iter().zip(bytes).all(|(line, byte)| line.len() == 1 && line.get(0) == Some(byte))
}

// Over an outside in memory the steps are answered so, and then it has these puts, and the lines are of these bytes.
fn keeps(
    rt: &impl Abort,
    alloc: Global,
    fail_at: u64,
    steps: &[Step],
    puts: &[(u64, u8, Taken)],
    bytes: &[u8],
) {
    let mut out = Quiet::new(alloc, MemOutside::new(alloc), fail_at);
    expect(rt, &mut out, steps);
    let (below, lines) = out.parts();
    assert!(rt; are_puts(below.acts(), puts));
    assert!(rt; are_lines(&lines, bytes));
}

const WRITTEN: Result<Taken, PutFault> = Ok(Taken::Written);

const LATE: Result<Taken, PutFault> = Ok(Taken::Late);

const FAILED: Result<Taken, PutFault> = Err(PutFault::Failed);

#[test]
fn nothing_done_leaves_nothing(rt: HostRuntime) {
    keeps(&rt, rt.alloc(), 0, &[], &[], &[]);
}

#[test]
fn no_put_fails(rt: HostRuntime) {
    keeps(
        &rt,
        rt.alloc(),
        0,
        &[
            Step::Say(1),
            Step::Get(5, 0),
            Step::Put(5, 7, 20, WRITTEN),
            Step::Get(5, 7),
            Step::Say(2),
            Step::Say(3),
            Step::Put(5, 8, 21, LATE),
            Step::Get(5, 7),
            Step::Put(6, 9, 0, WRITTEN),
            Step::Say(4),
        ],
        &[
            (5, 7, Taken::Written),
            (5, 8, Taken::Late),
            (6, 9, Taken::Written),
        ],
        &[1, 2, 3, 4],
    );
}

// A late one isn't it, and the next that isn't late is, alone.
#[test]
fn the_first_put_fails(rt: HostRuntime) {
    keeps(
        &rt,
        rt.alloc(),
        1,
        &[
            Step::Put(5, 7, 21, LATE),
            Step::Say(1),
            Step::Put(5, 7, 20, FAILED),
            Step::Get(5, 0),
            Step::Put(5, 7, 20, WRITTEN),
            Step::Get(5, 7),
            Step::Put(6, 8, 20, WRITTEN),
        ],
        &[
            (5, 7, Taken::Late),
            (5, 7, Taken::Written),
            (6, 8, Taken::Written),
        ],
        &[1],
    );
}

// Late ones count among those answered before it.
#[test]
fn the_third_put_fails(rt: HostRuntime) {
    keeps(
        &rt,
        rt.alloc(),
        3,
        &[
            Step::Put(5, 1, 20, WRITTEN),
            Step::Put(5, 2, 21, LATE),
            Step::Put(5, 3, 22, LATE),
            Step::Say(1),
            Step::Put(5, 4, 19, FAILED),
            Step::Say(2),
            Step::Get(5, 1),
            Step::Put(5, 5, 19, WRITTEN),
            Step::Get(5, 5),
        ],
        &[
            (5, 1, Taken::Written),
            (5, 2, Taken::Late),
            (5, 3, Taken::Late),
            (5, 5, Taken::Written),
        ],
        &[1, 2],
    );
}

// An outside at which the get and the put of these ordinals fail, and every say up to the second.
fn failing(alloc: Global, get: u64, put: u64) -> Result<FaultyOutside, AllocError>
    ensures { IfOk result (λ out. out.acts ≡ []) }
{
    Ok(FaultyOutside::new(
        alloc,
        vec![in alloc; get]?,
        vec![in alloc; put]?,
        vec![in alloc; 1, 2]?,
    ))
}

// What fails below does so above, and a put that failed is no answered one; no line is said below.
#[test]
fn calls_fail_as_below(rt: HostRuntime) -> Result<(), Fail> {
    let mut out = Quiet::new(rt.alloc(), failing(rt.alloc(), 2, 1)?, 2);
    expect(
        &rt,
        &mut out,
        &[
            Step::Get(5, 0),
            Step::Lack(5),
            Step::Put(5, 1, 20, FAILED),
            Step::Put(5, 2, 20, WRITTEN),
            Step::Say(9),
            Step::Put(5, 3, 20, FAILED),
            Step::Put(5, 4, 20, WRITTEN),
        ],
    );
    let (below, lines) = out.parts();
    assert!(rt;
        are_puts(
            below.acts(),
            &[(5, 2, Taken::Written), (5, 4, Taken::Written)]
        )
    );
    assert!(rt; are_lines(&lines, &[9]));
    Ok(())
}
