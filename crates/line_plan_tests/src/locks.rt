// The locks of lines over a small disk, as they were worked out by hand.
use crate::asked::{Disk, Telling, expect};
use crate::lines::{DISK, SEGMENT as FIRST};
use plan_disks::Segment;
use std::alloc::Global;
use std::process::Abort;
use std::test::Fail;

// All of it is free.
const SECOND: Segment = Segment {
    number: 1,
    inodes: 0,
    states: "",
    ..FIRST
};

const FIRST_WITHOUT_INODES: Segment = Segment {
    inodes: u64::MAX,
    ..FIRST
};

const SECOND_WITHOUT_INODES: Segment = Segment {
    inodes: u64::MAX,
    ..SECOND
};

// Each small block is in use.
const FIRST_WITHOUT_BLOCKS: Segment = Segment {
    others: 85,
    states: "1:7f",
    ..FIRST
};

const SECOND_WITHOUT_BLOCKS: Segment = Segment {
    others: 85,
    ..SECOND
};

// Its first six blocks are in use, so block 1030 is the first that is free.
const SECOND_WITH_SIX: Segment = Segment {
    states: "0:5505",
    ..SECOND
};

// Of a walk the directories, and the links that it follows; of the plan behind it the directories again, and the node.
const ROWS: &str = "
create /n      | whole | s0! n0! n5!
create /l/x    | whole | s0! n0 n2! n3 n5!
create /o/x    | whole | n0 n7
stat /l        | whole | n0 n3
read /f 0 1    | whole | n0 n1
unlink /f      | whole | s0! n0! n1!
unlink /l/g    | whole | s0! n0 n2! n3 n4!
rmdir /e       | whole | s0! n0! n6!
rmdir /d       | whole | n0 n2
link /f /l/h   | whole | n0 n1! n2! n3
rename /d /k   | whole | n0!
rename /f /l/f | whole | n0! n2! n3
rename /f /d/g | whole | s0! n0! n2! n4!
write /l/g 0 a | whole | s0! n0 n2 n3 n4!
truncate /f 0  | whole | s0! n0 n1!
";

// No inode is free.
const INODE_ROWS: &str = "
create /n | whole | s0! s1! n0
";

// No small block is free, and the directory `e` is full.
const BLOCK_ROWS: &str = "
create /e/x    | whole | s0! s1! n0 n6
write /l/g 0 a | whole | s0! s1! n0 n2 n3 n4
";

// The directory `d` is full, and block 0 is the first that is free.
const FIRST_ROWS: &str = "
create /l/x  | whole | clear 0: s0! n0 n2! n3 n5!
link /f /d/h | whole | clear 0: s0! n0 n1! n2!
";

// The directory `e` is full, and block 1030 is the first that is free.
const SECOND_ROWS: &str = "
create /e/x      | whole | clear 1030: s0! s1! n0 n5! n6!
rename /d/g /e/k | whole | clear 1030: s1! n0 n2! n6!
";

static SEGMENTS: [(&str, Segment); 7] = [
    ("first", FIRST),
    ("second", SECOND),
    ("first_without_inodes", FIRST_WITHOUT_INODES),
    ("second_without_inodes", SECOND_WITHOUT_INODES),
    ("first_without_blocks", FIRST_WITHOUT_BLOCKS),
    ("second_without_blocks", SECOND_WITHOUT_BLOCKS),
    ("second_with_six", SECOND_WITH_SIX),
];

// What is at hand of a disk with both segments.
fn at_hand() -> Disk {
    Disk {
        laid: DISK,
        more: "",
        segments: &SEGMENTS,
        held: "first second all",
    }
}

fn without_inodes() -> Disk {
    Disk {
        held: "first_without_inodes second_without_inodes all",
        ..at_hand()
    }
}

// The directory `e` is full.
fn without_blocks() -> Disk {
    Disk {
        more: "full 6",
        held: "first_without_blocks second_without_blocks all",
        ..at_hand()
    }
}

// The directory `d` is full.
fn clear_in_first() -> Disk {
    Disk {
        more: "full 5",
        ..at_hand()
    }
}

// The directory `e` is full.
fn clear_in_second() -> Disk {
    Disk {
        more: "full 6",
        held: "first_without_blocks second_with_six all",
        ..at_hand()
    }
}

fn expect_locks(rt: &impl Abort, alloc: Global, disk: &Disk, rows: &str) -> Result<(), Fail> {
    expect(rt, alloc, disk, Telling::Locks, rows)
}

#[test]
fn finished_lines_need_the_locks_worked_out(rt: HostRuntime) -> Result<(), Fail> {
    expect_locks(&rt, rt.alloc(), &at_hand(), ROWS)
}

#[test]
fn a_full_disk_needs_each_segment(rt: HostRuntime) -> Result<(), Fail> {
    expect_locks(&rt, rt.alloc(), &without_inodes(), INODE_ROWS)?;
    expect_locks(&rt, rt.alloc(), &without_blocks(), BLOCK_ROWS)
}

#[test]
fn lines_that_have_a_block_cleared_need_the_locks_worked_out(rt: HostRuntime) -> Result<(), Fail> {
    expect_locks(&rt, rt.alloc(), &clear_in_first(), FIRST_ROWS)?;
    expect_locks(&rt, rt.alloc(), &clear_in_second(), SECOND_ROWS)
}
