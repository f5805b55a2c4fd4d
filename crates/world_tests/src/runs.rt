// Whole runs by the list of events, and the next event beside the list.
use crate::driving::{Driven, KINDS, told};
use frang_base::NoMemory;
use hall_runs::Event;
use std::alloc::Global;
use std::process::Abort;
use std::rt::HostRuntime;
use std::test::Fail;

// More turns than any of these runs takes.
const TURNS_MAX: u32 = 20_000;

// A script, and the lines that it says where the first event of the list is made at each turn and every line passes the gate at once.
struct Row {
    script: &'static [u8],
    said: &'static [u8],
}

static ROWS: [Row; 8] = [
    // two servers create one name
    Row {
        script: b"0 mount\n0 create /a\nbarrier\n1 mount\n1 create /a\n",
        said: b"1 0 mounted\n2 0 ok\n3 - ok\n4 1 mounted\n5 1 exist\n= / dir 1\n= /a file 0 1\n! end\n",
    },
    // a create that another server saw lasts
    Row {
        script: b"0 mount\n0 create /a\nbarrier\n1 mount\n1 stat /a\nbarrier\n0 crash\n",
        said: b"1 0 mounted\n2 0 ok\n3 - ok\n4 1 mounted\n5 1 file 0 1\n6 - ok\n! dead 0\n7 0 ok\n! recovering 0 by 1\n! recovered 0 keeps 1.2\n= / dir 1\n= /a file 0 1\n! end\n",
    },
    // one that nobody saw is lost
    Row {
        script: b"0 mount\n0 create /a\n0 crash\nbarrier\n1 mount\n1 list /\n",
        said: b"1 0 mounted\n2 0 ok\n! dead 0\n3 0 ok\n4 - ok\n5 1 mounted\n! recovering 0 by 1\n! recovered 0 keeps 0.0\n6 1 names\n= / dir 0\n! end\n",
    },
    // who recovers another dies, and is recovered with it
    Row {
        script: b"0 mount\n0 create /a\n0 sync\nbarrier\n1 mount\n1 crash 1\nbarrier\n0 crash\nbarrier\n1 list /\nbarrier\n2 mount\n2 list /\n",
        said: b"1 0 mounted\n2 0 ok\n3 0 ok\n4 - ok\n5 1 mounted\n6 1 ok\n7 - ok\n! dead 0\n8 0 ok\n9 - ok\n! recovering 0 by 1\n! dead 1\n10 1 down\n11 - ok\n12 2 mounted\n! recovering 0 by 2\n! recovered 0 keeps 1.2\n13 2 names a\n! recovering 1 by 2\n! recovered 1 keeps 0.0\n= / dir 1\n= /a file 0 1\n! end\n",
    },
    // a lease ends while its server is stalled
    Row {
        script: b"0 mount\n0 create /a\n0 stall\ntick 40\n0 stat /a\n0 unmount\n0 mount\n0 stat /a\n",
        said: b"1 0 mounted\n2 0 ok\n3 0 ok\n! dead 0\n! recovering 0 by -\n! recovered 0 keeps 0.0\n4 - ok\n5 0 expired\n6 0 ok\n7 0 mounted\n8 0 noent\n= / dir 0\n! end\n",
    },
    // a lease is renewed while its server isn't
    Row {
        script: b"0 mount\n0 create /a\ntick 40\n0 stat /a\n0 unmount\n",
        said: b"1 0 mounted\n2 0 ok\n3 - ok\n4 0 file 0 1\n5 0 ok\n= / dir 1\n= /a file 0 1\n! end\n",
    },
    // a block that is freed is used by another file
    Row {
        script: b"0 mount\n0 create /f\n0 write /f 0 abc\n0 truncate /f 0\n0 unlink /f\n1 mount\n1 create /g\n1 write /g 0 xyz\n1 read /g 0 3\n",
        said: b"1 0 mounted\n6 1 mounted\n2 0 ok\n3 0 ok\n4 0 ok\n5 0 ok\n7 1 ok\n8 1 ok\n9 1 data 78797a\n= / dir 1\n= /g file 3 1\n! end\n",
    },
    // behind a halt nothing is said
    Row {
        script: b"0 mount\n0 create /a\nhalt\n",
        said: b"1 0 mounted\n2 0 ok\n3 - ok\n",
    },
];

// Makes the first event of the list at each turn till the run is over, and says whether it ended.
fn run_firsts(driven: &mut Driven) -> Result<bool, NoMemory> {
    for _ in 0..TURNS_MAX {
        driven.open_gate();
        match driven.world.enabled()?.first() {
            Some(event) => driven.make(event)?,
            None => return Ok(driven.world.over()),
        }
    }
    Ok(false)
}

// Whether the run ends and says these lines.
fn says(driven: &mut Driven, alloc: Global, said: &[u8]) -> Result<bool, NoMemory> {
    let has_ended = run_firsts(driven)?;
    let lines = driven.said(alloc)?;
    Ok(has_ended && lines.as_slice() == said)
}

fn is_row(alloc: Global, row: &Row) -> Result<bool, NoMemory> {
    let mut driven = Driven::new(alloc, row.script)?;
    says(&mut driven, alloc, row.said)
}

#[test]
fn the_first_events_say_the_rows(rt: HostRuntime) -> Result<(), Fail> {
    for row in &ROWS {
        let is_row = is_row(rt.alloc(), row)?;
        assert!(rt; is_row);
    }
    Ok(())
}

// ---- drawn

// A script, and the order by which its events are drawn.
struct Drawing {
    script: &'static [u8],
    order: u64,
}

// Together they make each kind of event: servers share names, crash with writes in flight, stall with something dirty and without, and are recovered.
static DRAWINGS: [Drawing; 3] = [
    Drawing {
        script: b"0 mount\n1 mount\n0 create /a\n1 mkdir /d\n0 sync\n1 create /d/x\n1 write /d/x 0 hello\n0 read /d/x 0 5\n0 crash\ntick 40\n1 truncate /d/x 0\n1 unlink /d/x\n2 mount\n2 list /\n1 stall\ntick 40\n2 create /e\n1 stat /e\n",
        order: 0,
    },
    Drawing {
        script: b"0 mount\n1 mount\n0 create /a\n0 write /a 0 abc\n0 mkdir /d\nbarrier\n1 list /\n1 read /a 0 3\n0 crash\n1 stat /d\n",
        order: 7,
    },
    Drawing {
        script: b"0 mount\n0 sync\n0 stall\ntick 40\n0 list /\n0 create /a\n",
        order: 0,
    },
];

// The next state of the generator by which a run by orders draws.
fn drawn(state: u64) -> u64 {
    state
        .wrapping_mul(6_364_136_223_846_793_005)
        .wrapping_add(1_442_695_040_888_963_407)
}

// Whether the next event for this worker is one of the list, and there is one exactly where the list has one.
fn is_listed(list: &[Event], next: Option<Event>) -> bool {
    match next {
        Some(event) => list.iter().any(|listed| told(listed) == told(&event)),
        None => list.is_empty(),
    }
}

// Makes drawn events till the run is over, asks at each turn for the next event too, and counts the turns.
fn run_drawn(driven: &mut Driven, order: u64) -> Result<Option<u32>, NoMemory> {
    let mut state = order;
    for turn in 0..TURNS_MAX {
        driven.open_gate();
        let list = driven.world.enabled()?;
        let next = driven.world.next((turn % 17) as u8)?;
        if !is_listed(&list, next) {
            return Ok(None);
        }
        if list.is_empty() {
            return Ok(Some(turn));
        }
        state = drawn(state);
        let place = (state >> 33) % list.len() as u64;
        driven.make(&list[place as usize])?;
    }
    Ok(None)
}

// The turns of drawn runs, and how often each kind of event was made in them.
#[derive(Clone, Copy)]
struct Tally {
    turns: u32,
    made: [u32; KINDS],
}

// A drawn run's turns and events. `None` where its next event was once not as listed, or it didn't end.
fn tallied(driven: &mut Driven, order: u64) -> Result<Option<Tally>, NoMemory> {
    match run_drawn(driven, order)? {
        Some(turns) => Ok(Some(Tally {
            turns,
            made: driven.made,
        })),
        None => Ok(None),
    }
}

fn draw(alloc: Global, drawing: &Drawing) -> Result<Option<Tally>, NoMemory> {
    let mut driven = Driven::new(alloc, drawing.script)?;
    tallied(&mut driven, drawing.order)
}

fn add(all: &mut Tally, one: &Tally) {
    all.turns = all.turns.saturating_add(one.turns);
    for kind in 0..KINDS {
        all.made[kind] = all.made[kind].saturating_add(one.made[kind]);
    }
}

// All drawn runs together.
fn draw_all(alloc: Global) -> Result<Option<Tally>, NoMemory> {
    let mut all = Tally {
        turns: 0,
        made: [0; KINDS],
    };
    for drawing in &DRAWINGS {
        match draw(alloc, drawing)? {
            Some(one) => add(&mut all, &one),
            None => return Ok(None),
        }
    }
    Ok(Some(all))
}

fn is_wide(all: &Tally) -> bool {
    all.turns >= 2_000 && all.made.iter().all(|count| *count > 0)
}

// The next event is one of the list at each of some thousands of turns, in which each kind of event is made.
#[test]
fn the_next_event_is_listed(rt: HostRuntime) -> Result<(), Fail> {
    match draw_all(rt.alloc())? {
        Some(all) => assert!(rt; is_wide(&all)),
        None => assert!(rt; false),
    }
    Ok(())
}
