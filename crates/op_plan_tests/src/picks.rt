// Picks from segments written out by hand, and that a pick of many succeeds while there is memory.
use bitmap_alloc::{Use, pick_inode, pick_large, pick_many, pick_small};
use frang_base::{Held, NoMemory};
use plan_disks::{Segment, held_of};
use std::alloc::Global;
use std::test::Fail;

// The names of held segments; the inode, the small block for bytes, that for a directory and the large block that are picked; and three small blocks.
type Row = (&'static str, [Option<u32>; 4], Option<&'static [u32]>);

const FULL: Segment = Segment {
    number: 0,
    version: 1,
    inodes: u64::MAX,
    others: 0b01_01_01_01,
    states: "",
    large: true,
};

const LAST_FULL: Segment = Segment { number: 63, ..FULL };

// Five inodes are in use, and the small blocks 0, 1 and 3.
const BEGUN: Segment = Segment {
    number: 1,
    version: 1,
    inodes: 31,
    others: 0,
    states: "0:4d",
    large: false,
};

const BEGUN_FOURTH: Segment = Segment { number: 3, ..BEGUN };

const BEGUN_LAST: Segment = Segment {
    number: 63,
    ..BEGUN
};

// The second inode is free, and block 6 was a directory's.
const FORMER: Segment = Segment {
    number: 2,
    version: 1,
    inodes: 0b101,
    others: 0b01_01_01_01,
    states: "0:d565",
    large: true,
};

const FORMER_LAST: Segment = Segment {
    number: 63,
    ..FORMER
};

static SEGMENTS: [(&str, Segment); 7] = [
    ("full", FULL),
    ("last_full", LAST_FULL),
    ("begun", BEGUN),
    ("begun_fourth", BEGUN_FOURTH),
    ("begun_last", BEGUN_LAST),
    ("former", FORMER),
    ("former_last", FORMER_LAST),
];

static PICKS: [Row; 6] = [
    ("", [None, None, None, None], None),
    ("full last_full", [None, None, None, None], None),
    (
        "full begun",
        [Some(69), Some(1026), Some(1026), Some(1)],
        Some(&[1026, 1028, 1029]),
    ),
    (
        "begun_fourth former",
        [Some(129), Some(3074), Some(2054), Some(3)],
        Some(&[3074, 3076, 3077]),
    ),
    (
        "former_last full",
        [Some(4033), None, Some(64518), None],
        None,
    ),
    (
        "begun_last",
        [Some(4037), Some(64514), Some(64514), Some(63)],
        Some(&[64514, 64516, 64517]),
    ),
];

// Whether the picks are those of the row.
fn are_picked(alloc: Global, row: &Row) -> Result<bool, NoMemory> {
    let (segments, picks, three) = *row;
    let held = held_of(alloc, &SEGMENTS, segments)?;
    Ok(are_each_picked(&held, &picks) && are_many_picked(alloc, &held, three)?)
}

// An inode, a small block for bytes, one for a directory, and a large block.
fn are_each_picked(held: &Held, picks: &[Option<u32>; 4]) -> bool {
    let small = pick_small(held, Use::Bytes);
    let directory = pick_small(held, Use::Directory);
    [pick_inode(held), small, directory, pick_large(held)] == *picks
}

fn are_many_picked(alloc: Global, held: &Held, three: Option<&[u32]>) -> Result<bool, NoMemory> {
    let many = pick_many(alloc, held, 3)?;
    Ok(many.as_deref() == three)
}

#[test]
fn picks_are_the_least_of_the_held_segments(rt: HostRuntime) -> Result<(), Fail> {
    for (place, row) in PICKS.iter().enumerate() {
        assert!(rt; are_picked(rt.alloc(), row)?, "row {place}");
    }
    Ok(())
}
