// Lines over a small disk: the reply with the numbers of its edits and with what they move, or what is missing, with its cover.
use crate::asked::{Disk, Telling, expect};
use plan_disks::Segment;
use std::test::Fail;

// Inode 5 is free. Blocks 4 to 6 are directories', and 8 holds bytes.
pub(crate) const SEGMENT: Segment = Segment {
    number: 0,
    version: 1,
    inodes: 223,
    others: 0,
    states: "1:3f01",
    large: false,
};

// The root with the file `f` of five bytes, the directory `d` with an empty file `g`, the link `l` to `d`, the empty directory `e`, and the link `o` to
// itself.
pub(crate) const DISK: &str = "
i0 8:020001000100000005 32:04
i1 8:010001000100000005 32:08
i2 8:020001000100000001 32:05
i3 8:030001000000000001 128:'d
i4 8:010001
i5
i6 8:0200010001 32:06
i7 8:030001000000000001 128:'o
s4+24
s4 8:010000000101'f 80:020000000102'd 152:030000000103'l 224:060000000102'e 296:070000000103'o
s5 8:040000000101'g
s8 0:'bytes
";

const ROWS: &str = "
create /n      | whole | ok i5:1,1,0,0 b5:true i0:2,1,6,1 p4.5:n,5,1, inode 5 under Node(5)
create /l/x    | whole | ok i5:1,1,0,0 b5:true i2:2,1,2,1 p5.1:x,5,1, inode 5 under Node(5)
create /l      | whole | exist
create /f/x    | whole | notdir
create /o/x    | whole | loop
create /l/x    | -i3   | needs 10737418243 under Node(3)
create /l/x    | -i5   | needs 10737418245 under Segment(0)
create /l/x    | -s5   | needs 12884901928 under Node(2)
create /n      | -s4.1 | needs 12884901921 under Node(0)
unlink /f      | whole | ok i0:2,1,4,1 p4.0:- u8:Unused i1:- b1:false, block 8 under Segment(0), inode 1 under Segment(0)
unlink /l/g    | whole | ok i2:2,1,0,1 p5.0:- i4:- b4:false, inode 4 under Segment(0)
unlink /l      | whole | ok i0:2,1,4,1 p4.2:- i3:- b3:false, inode 3 under Segment(0)
rmdir /e       | whole | ok i0:2,1,4,1 p4.3:- u6:FormerDirectory i6:- b6:false, block 6 under Segment(0), inode 6 under Segment(0)
rename /d /l/k | whole | inval
rename /f /l/f | whole | ok i2:2,1,2,1 p5.1:f,1,1 i0:2,1,4,1 p4.0:-
rename / /l    | whole | inval
write /l/g 0 a | whole | ok u0:FileBytes i4:1,1,1,1,0,0,0 at 3.9 s0.0:61(00*511), block 0 under Node(4)
write /f 5 !   | whole | ok i1:1,1,6,1,8,0,0 at 3.9 s8.0:627974657321(00*506)
truncate /f 0  | whole | ok u8:Unused i1:1,1,0,0,0,0,0 at 3.9, block 8 under Segment(0)
read /o 0 1    | whole | loop
read /f 0 1    | whole | data 62
read /f 0 1    | -s8   | needs 12884901952 under Node(1)
list /l        | whole | names g
stat /l        | whole | link 1
sync           | whole | ok
";

// Where the plans of lines look: first the walks through links, of each name the directory's inode and then its sectors up to the name, and the inode of a link that
// is followed; then the plan over the paths without links. A pick looks at the segment. The second path of a rename is walked where the first one leads to a
// node. A ninth link isn't looked at. Sectors of file bytes are left out.
const LOOKS: &str = "
stat /f        | whole | i0 s4.0 i0 s4.0 i1
stat /l        | whole | i0 s4.0 i0 s4.0 i3
list /l        | whole | i0 s4.0 i3 i0 s4.0 i0 s4.0 i2 s5.0 s5.1 s5.2 s5.3 s5.4 s5.5 s5.6 s5.7
list /l        | -s5.2 | i0 s4.0 i3 i0 s4.0 i0 s4.0 i2 s5.0 s5.1
create /l/x    | whole | i0 s4.0 i3 i0 s4.0 i2 s5.0 s5.1 s5.2 s5.3 s5.4 s5.5 s5.6 s5.7 i0 s4.0 i2 s5.0 s5.1 s5.2 s5.3 s5.4 s5.5 s5.6 s5.7 k0 s5.0 i5
create /n      | whole | i0 s4.0 s4.1 s4.2 s4.3 s4.4 s4.5 s4.6 s4.7 i0 s4.0 s4.1 s4.2 s4.3 s4.4 s4.5 s4.6 s4.7 k0 s4.0 i5
create /n      | -i5   | i0 s4.0 s4.1 s4.2 s4.3 s4.4 s4.5 s4.6 s4.7 i0 s4.0 s4.1 s4.2 s4.3 s4.4 s4.5 s4.6 s4.7 k0 s4.0
create /l      | whole | i0 s4.0 i0 s4.0
create /l/x    | -i3   | i0 s4.0
create /l/x    | -s5   | i0 s4.0 i3 i0 s4.0 i2
create /n      | -s4.1 | i0 s4.0
create /f/x    | whole | i0 s4.0
create /o/x    | whole | i0 s4.0 i7 i0 s4.0 i7 i0 s4.0 i7 i0 s4.0 i7 i0 s4.0 i7 i0 s4.0 i7 i0 s4.0 i7 i0 s4.0 i7 i0 s4.0
unlink /f      | whole | i0 s4.0 i0 s4.0 i1 k0 k0
rmdir /e       | whole | i0 s4.0 i0 s4.0 i6 k0 k0
rename /f /l/f | whole | i0 s4.0 i0 s4.0 i3 i0 s4.0 i2 s5.0 s5.1 s5.2 s5.3 s5.4 s5.5 s5.6 s5.7 i0 s4.0 i0 s4.0 i2 s5.0 s5.1 s5.2 s5.3 s5.4 s5.5 s5.6 \
    s5.7 s5.0
rename /d /l/k | whole | i0 s4.0 i0 s4.0 i3 i0 s4.0 i2 s5.0 s5.1 s5.2 s5.3 s5.4 s5.5 s5.6 s5.7 i0 s4.0 i0 s4.0 i2 s5.0 s5.1 s5.2 s5.3 s5.4 s5.5 s5.6 \
    s5.7
rename / /l    | whole |
write /l/g 0 a | whole | i0 s4.0 i3 i0 s4.0 i2 s5.0 i0 s4.0 i2 s5.0 i4 k0
write /f 5 !   | whole | i0 s4.0 i0 s4.0 i1
truncate /f 0  | whole | i0 s4.0 i0 s4.0 i1 k0
read /f 0 1    | whole | i0 s4.0 i0 s4.0 i1
read /f 0 1    | -s8   | i0 s4.0 i0 s4.0 i1
sync           | whole |
";

// The root with the empty file `f`, the directory `d` without a block, and the link `l` to it. Inode 4 is free, and block 4 is the root's.
const BARE: &str = "
i0 8:020001000100000003 32:04
i1 8:010001
i2 8:020001
i3 8:030001000000000001 128:'d
i4
s4+8
s4 8:010000000101'f 80:020000000102'd 152:030000000103'l
";

const BARE_SEGMENT: Segment = Segment {
    inodes: 15,
    states: "1:03",
    ..SEGMENT
};

// A block of which the sectors aren't cached as zero has to be cleared, for the operation to which the walks lead.
const CLEARS: &str = "
create /l/x    | whole | clear 0 for 0 create /d/x
create /d/x    | whole | clear 0 for 0 create /d/x
rename /f /l/k | whole | clear 0 for 0 rename /f /d/k
create /l/x    | -i4   | needs 10737418244 under Segment(0)
";

const CLEARS_LOOKS: &str = "
create /l/x    | whole | i0 s4.0 i3 i0 s4.0 i2 i0 s4.0 i2 k0 k0 i4
rename /f /l/k | whole | i0 s4.0 i0 s4.0 i3 i0 s4.0 i2 i0 s4.0 i0 s4.0 i2 k0
create /l/x    | -i4   | i0 s4.0 i3 i0 s4.0 i2 i0 s4.0 i2 k0 k0
";

// No inode is free.
const FULL_SEGMENT: Segment = Segment {
    inodes: u64::MAX,
    ..BARE_SEGMENT
};

// Where every segment is held none is left, and else others may have one; the held ones were looked at.
const FULL: &str = "
create /l/x | whole | nospace inode
";

const FULL_SO_FAR: &str = "
create /l/x | whole | segments
";

const FULL_LOOKS: &str = "
create /l/x | whole | i0 s4.0 i3 i0 s4.0 i2 i0 s4.0 i2 k0
";

static SEGMENTS: [(&str, Segment); 3] = [
    ("segment", SEGMENT),
    ("bare", BARE_SEGMENT),
    ("full", FULL_SEGMENT),
];

/// What is at hand of the disk.
pub(crate) fn at_hand() -> Disk {
    Disk {
        laid: DISK,
        more: "",
        segments: &SEGMENTS,
        held: "segment all",
    }
}

/// What is at hand of the bare disk.
pub(crate) fn bare_at_hand() -> Disk {
    Disk {
        laid: BARE,
        held: "bare all",
        ..at_hand()
    }
}

fn full_at_hand() -> Disk {
    Disk {
        laid: BARE,
        held: "full all",
        ..at_hand()
    }
}

/// The same with a segment that has nothing free, where it isn't said to be all.
pub(crate) fn full_so_far_at_hand() -> Disk {
    Disk {
        laid: BARE,
        held: "full",
        ..at_hand()
    }
}

#[test]
fn lines_end_as_worked_out(rt: HostRuntime) -> Result<(), Fail> {
    expect(&rt, rt.alloc(), &at_hand(), Telling::End, ROWS)
}

#[test]
fn lines_look_where_worked_out(rt: HostRuntime) -> Result<(), Fail> {
    expect(&rt, rt.alloc(), &at_hand(), Telling::Looks, LOOKS)
}

#[test]
fn a_block_is_cleared_for_the_operation_without_links(rt: HostRuntime) -> Result<(), Fail> {
    let alloc = rt.alloc();
    expect(&rt, alloc, &bare_at_hand(), Telling::End, CLEARS)?;
    expect(&rt, alloc, &bare_at_hand(), Telling::Looks, CLEARS_LOOKS)
}

#[test]
fn nothing_is_left_only_where_every_segment_is_held(rt: HostRuntime) -> Result<(), Fail> {
    let alloc = rt.alloc();
    let (all, some) = (&full_at_hand(), &full_so_far_at_hand());
    expect(&rt, alloc, all, Telling::End, FULL)?;
    expect(&rt, alloc, some, Telling::End, FULL_SO_FAR)?;
    expect(&rt, alloc, all, Telling::Looks, FULL_LOOKS)?;
    expect(&rt, alloc, some, Telling::Looks, FULL_LOOKS)
}
