// Lines planned for the core: a needed sector with its cover, the locks, and of a finished line its record, its bytes with their covers, what it frees and what moves, as
// they were worked out by hand.
use crate::asked::{Telling, add_move, expect};
use crate::lines::{at_hand, bare_at_hand, full_so_far_at_hand};
use crate::needed::add_set;
use frang_base::NoMemory;
use plan_disks::{add_changes, add_freed, add_reply, add_writes};
use planned_lines::{BytesSet, Finished, PlanEnd};
use std::alloc::Global;
use std::fmt::Write;
use std::test::Fail;

const ROWS: &str = "
create /n      | -i5   | needs 10737418245 under Segment(0)
read /f 0 1    | -s8   | needs 12884901952 under Node(1)
stat /l        | whole | link 1: n0 n3
write /f 5 !   | whole | ok, 10737418241 v1 16:06 100:0900000003000000, 12884901952=627974657321(00*506) under Node(1): n0 n1!
write /l/g 0 a | whole | ok, 4294967296 v2 16:01, 10737418244 v1 12:01 16:01 100:0900000003000000, 12884901888=61(00*511) under Node(4), \
    block 0 under Node(4): s0! n0 n2 n3 n4!
truncate /f 0  | whole | ok, 4294967296 v2 18:00, 10737418241 v1 12:00 16:00 32:00 100:0900000003000000, freed 12884901952..12884901959, \
    block 8 under Segment(0): s0! n0 n1!
";

// A block of which the sectors aren't cached as zero has to be cleared.
const BARE_ROWS: &str = "
create /l/x | whole | clear 0: s0! n0 n2! n3 n4!
";

// No inode is free in the held segment, and others may have one.
const FULL_ROWS: &str = "
create /l/x | whole | segments
";

/// How a line planned for the core ends.
pub(crate) fn end_told(alloc: Global, end: &PlanEnd) -> Result<String, NoMemory> {
    let mut text = String::new(alloc);
    match end {
        PlanEnd::Need { sector, cover } => write!(text, "needs {} under {cover:?}", sector.0)?,
        PlanEnd::Segments => write!(text, "segments")?,
        PlanEnd::Clear { block, locks } => {
            write!(text, "clear {block}: ")?;
            add_set(&mut text, locks)?;
        }
        PlanEnd::Done(done) => add_done(alloc, &mut text, done)?,
    }
    Ok(text)
}

fn add_done(alloc: Global, text: &mut String, done: &Finished) -> Result<(), NoMemory> {
    add_reply(alloc, text, &done.reply)?;
    if let Some(redo) = &done.redo {
        add_changes(text, redo.changes.as_slice())?;
    }
    for set in &done.bytes {
        add_bytes(text, set)?;
    }
    add_freed(text, done.freed.as_slice())?;
    for moved in &done.moves {
        add_move(text, moved)?;
    }
    write!(text, ": ")?;
    add_set(text, &done.locks)
}

// A sector of file bytes that is set, with its cover.
fn add_bytes(text: &mut String, set: &BytesSet) -> Result<(), NoMemory> {
    add_writes(text, &[(set.sector, set.block)])?;
    write!(text, " under {:?}", set.cover)?;
    Ok(())
}

#[test]
fn lines_planned_for_the_core_end_as_worked_out(rt: HostRuntime) -> Result<(), Fail> {
    let alloc = rt.alloc();
    expect(&rt, alloc, &at_hand(), Telling::ForCore, ROWS)?;
    expect(&rt, alloc, &bare_at_hand(), Telling::ForCore, BARE_ROWS)?;
    expect(
        &rt,
        alloc,
        &full_so_far_at_hand(),
        Telling::ForCore,
        FULL_ROWS,
    )
}
