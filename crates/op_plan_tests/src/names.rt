// Operations on names over a small disk, worked out by hand: the reply with the numbers of its edits, or what is missing.
use crate::bytes_asked::{Setup, Telling};
use crate::names_asked::expect;
use plan_disks::Segment;
use std::test::Fail;

// Blocks 4 to 7 and 32 to 47 are directories', and 8 to 23 hold bytes.
const FIRST: Segment = Segment {
    number: 0,
    version: 1,
    inodes: 1791,
    others: 0,
    states: "1:ff55555555 8:ffffffff",
    large: false,
};

// The same where block 24 was a directory's.
const FORMER: Segment = Segment {
    states: "1:ff5555555502 8:ffffffff",
    ..FIRST
};

const NO_INODE: Segment = Segment {
    inodes: u64::MAX,
    ..FIRST
};

const NO_BLOCK: Segment = Segment {
    others: 85,
    states: "",
    ..FIRST
};

const SECOND: Segment = Segment { number: 1, ..FIRST };

static SEGMENTS: [(&str, Segment); 5] = [
    ("first", FIRST),
    ("former", FORMER),
    ("no_inode", NO_INODE),
    ("no_block", NO_BLOCK),
    ("second", SECOND),
];

// The root with `f`, `d`, `l`, `e`, `h`, `w`, `v`, `m` and `o`; `d` with `g`, a second name of `f`, and with the directory `s`; a long file
// `h`; `w` with one full block, and `v` with sixteen; `m` with 1,000 links; and `o`, whose inode is free. Blocks 0 and 6 are zeros, and so is the
// first sector of block 24.
const DISK: &str = "
i0 8:020001000100000009 32:04
i1 8:010002
i2 8:020001000100000002 32:05
i3 8:030001000000000001 128:'x
i4 8:0200010001 32:06
i5 8:0100010010000000010001 32:08000000090000000a0000000b000000 48:0c0000000d0000000e0000000f000000 64:10000000110000001200000013000000 \
    80:1400000015000000160000001700000002
i6 8:020001000100000038 32:07
i7 8:02000100100000008003 32:20000000210000002200000023000000 48:24000000250000002600000027000000 64:28000000290000002a0000002b000000 \
    80:2c0000002d0000002e0000002f
i8 0:01
i9 8:0100e803
i10 8:020001
s0+8
s4+24
s24
s4 8:010000000101'f 80:020000000102'd 224:030000000103'l 296:040000000102'e 368:050000000101'h 440:060000000102'w
s4.1 8:070000000102'v 80:090000000101'm 152:080000000101'o
s5 8:010000000101'g 80:0a0000000102's
full 7 32 33 34 35 36 37 38 39 40 41 42 43 44 45 46 47
";

// What is told of plans over it.
fn setup() -> Setup {
    Setup {
        disk: DISK,
        segments: &SEGMENTS,
        telling: Telling::Edits,
    }
}

const MADE: &str = "
create /a     | first all       | ok i8:1,1,0,0 b8:true i0:2,1,10,1 p4.2:a,8,1
mkdir /a      | first all       | ok i8:2,1,0,0 b8:true i0:2,1,10,1 p4.2:a,8,2
symlink /a xy | first all       | ok i8:3,1,2,0 b8:true i0:2,1,10,1 p4.2:a,8,3
create /d/a   | first all       | ok i8:1,1,0,0 b8:true i2:2,1,3,1 p5.2:a,8,1
create /e/a   | first           | ok i8:1,1,0,0 b8:true i4:2,1,1,1 p6.0:a,8,1
create /w/a   | first all       | ok i8:1,1,0,0 b8:true u0:Directory i6:2,1,56,2 i6:2,1,57,2 p0.0:a,8,1
create /w/a   | former all      | ok i8:1,1,0,0 b8:true u24:Directory i6:2,1,56,2 i6:2,1,57,2 p24.0:a,8,1
create /w/a   | first all -s0.3 | clear 0
create /w/a   | former all -s24 | needs 12884902080
create /w/a   | no_block all    | nospace dir
create /w/a   | no_block        | segments
create /a     | no_inode all    | nospace inode
create /a     | no_inode        | segments
create /a     | none            | segments
create /f     | first all       | exist
mkdir /       | first all       | exist
create /n/a   | first all       | noent
create /f/a   | first all       | notdir
create /v/a   | first all       | dirfull
create /a     | first all -i8   | needs 10737418248
create /a     | first all -i0   | needs 10737418240
create /a     | first all -s4   | needs 12884901920
";

#[test]
fn nodes_are_made_as_worked_out_by_hand(rt: HostRuntime) -> Result<(), Fail> {
    expect(&rt, rt.alloc(), &setup(), MADE)
}

const REMOVED: &str = "
unlink /f   | none             | ok i0:2,1,8,1 p4.0:- i1:1,1,0,0
unlink /d/g | first all        | ok i2:2,1,1,1 p5.0:- i1:1,1,0,0
unlink /l   | first all        | ok i0:2,1,8,1 p4.3:- i3:- b3:false
unlink /l   | none             | needs 4294967296
unlink /h   | first all        | needs 4294967297
unlink /h   | first second all | ok i0:2,1,8,1 p4.5:- u23:Unused u22:Unused u21:Unused u20:Unused u19:Unused u18:Unused u17:Unused u16:Unused \
    u15:Unused u14:Unused u13:Unused u12:Unused u11:Unused u10:Unused u9:Unused u8:Unused g1:false i5:- b5:false
unlink /d   | first all        | isdir
unlink /    | first all        | isdir
unlink /n   | first all        | noent
unlink /f/x | first all        | notdir
unlink /f   | first all -i1    | needs 10737418241
rmdir /e    | first all        | ok i0:2,1,8,1 p4.4:- u6:FormerDirectory i4:- b4:false
rmdir /e    | none             | needs 4294967296
rmdir /d    | first all        | notempty
rmdir /f    | first all        | notdir
rmdir /     | first all        | inval
rmdir /n    | first all        | noent
";

#[test]
fn names_are_removed_as_worked_out_by_hand(rt: HostRuntime) -> Result<(), Fail> {
    expect(&rt, rt.alloc(), &setup(), REMOVED)
}

const LINKED: &str = "
link /f /a     | first all | ok i1:1,3,0,0 i0:2,1,10,1 p4.2:a,1,1
link /h /d/a   | first all | ok i5:1,2,65537,16 i2:2,1,3,1 p5.2:a,5,1
link /l /e/a   | first all | ok i3:3,2,1,0 i4:2,1,1,1 p6.0:a,3,3
link /f /w/a   | first all | ok i1:1,3,0,0 u0:Directory i6:2,1,56,2 i6:2,1,57,2 p0.0:a,1,1
link /f /d/s/a | first all | ok i1:1,3,0,0 u0:Directory i10:2,1,0,1 i10:2,1,1,1 p0.0:a,1,1
link /m /a     | first all | mlink
link /m /v/a   | first all | mlink
link /f /v/a   | first all | dirfull
link /d /a     | first all | isdir
link / /a      | first all | isdir
link /n /a     | first all | noent
link /f/x /a   | first all | notdir
link /f /d     | first all | exist
link /f /      | first all | exist
link /f /n/a   | first all | noent
link /f /h/a   | first all | notdir
link /o /a     | first all | noent
";

#[test]
fn links_are_made_as_worked_out_by_hand(rt: HostRuntime) -> Result<(), Fail> {
    expect(&rt, rt.alloc(), &setup(), LINKED)
}

const LINKED_BY_WHAT_IS_AT_HAND: &str = "
link /f /w/a | former all      | ok i1:1,3,0,0 u24:Directory i6:2,1,56,2 i6:2,1,57,2 p24.0:a,1,1
link /f /w/a | first all -s0.3 | clear 0
link /f /w/a | former all -s24 | needs 12884902080
link /f /w/a | no_block all    | nospace dir
link /f /w/a | no_block        | segments
link /f /w/a | none            | segments
link /f /a   | none            | ok i1:1,3,0,0 i0:2,1,10,1 p4.2:a,1,1
link /f /a   | first all -i1   | needs 10737418241
link /f /d/a | first all -i2   | needs 10737418242
";

#[test]
fn links_go_by_what_is_at_hand(rt: HostRuntime) -> Result<(), Fail> {
    expect(&rt, rt.alloc(), &setup(), LINKED_BY_WHAT_IS_AT_HAND)
}

const MOVED: &str = "
rename /f /a     | first all | ok p4.0:a,1,1
rename /l /a     | first all | ok p4.3:a,3,3
rename /d/g /d/b | first all | ok p5.0:b,1,1
rename /f /d/a   | first all | ok i2:2,1,3,1 p5.2:a,1,1 i0:2,1,8,1 p4.0:-
rename /d/g /a   | first all | ok i0:2,1,10,1 p4.2:a,1,1 i2:2,1,1,1 p5.0:-
rename /d /e/a   | first all | ok i4:2,1,1,1 p6.0:a,2,2 i0:2,1,8,1 p4.1:-
rename /f /w/a   | first all | ok u0:Directory i6:2,1,56,2 i6:2,1,57,2 p0.0:a,1,1 i0:2,1,8,1 p4.0:-
rename /f /v/a   | first all | dirfull
rename /d /d/s   | first all | inval
rename /d /d/a   | first all | inval
rename /d /d/s/a | first all | inval
rename /d /d/n/a | first all | noent
rename / /a      | first all | inval
rename /n /      | first all | inval
rename /n /a     | first all | noent
rename /f/x /a   | first all | notdir
rename /f /n/a   | first all | noent
rename /f /h/a   | first all | notdir
";

#[test]
fn names_are_moved_as_worked_out_by_hand(rt: HostRuntime) -> Result<(), Fail> {
    expect(&rt, rt.alloc(), &setup(), MOVED)
}

const REPLACED: &str = "
rename /h /f   | first all | ok i0:2,1,8,1 p4.5:- p4.0:f,5,1 i1:1,1,0,0
rename /h /d/g | first all | ok i0:2,1,8,1 p4.5:- p5.0:g,5,1 i1:1,1,0,0
rename /f /l   | first all | ok i0:2,1,8,1 p4.0:- p4.3:l,1,1 i3:- b3:false
rename /d /e   | first all | ok i0:2,1,8,1 p4.1:- p4.4:e,2,2 u6:FormerDirectory i4:- b4:false
rename /d/s /e | first all | ok i2:2,1,1,1 p5.1:- p4.4:e,10,2 u6:FormerDirectory i4:- b4:false
rename /d/g /f | first all | ok
rename /f /f   | first all | ok
rename /d /d   | first all | ok
rename /e /d   | first all | notempty
rename /d /f   | first all | notdir
rename /f /d   | first all | isdir
rename /f /o   | first all | noent
";

#[test]
fn names_are_replaced_as_worked_out_by_hand(rt: HostRuntime) -> Result<(), Fail> {
    expect(&rt, rt.alloc(), &setup(), REPLACED)
}

const MOVED_BY_WHAT_IS_AT_HAND: &str = "
rename /f /h   | first second all | ok i0:2,1,8,1 p4.0:- p4.5:h,1,1 u23:Unused u22:Unused u21:Unused u20:Unused u19:Unused u18:Unused u17:Unused \
    u16:Unused u15:Unused u14:Unused u13:Unused u12:Unused u11:Unused u10:Unused u9:Unused u8:Unused g1:false i5:- b5:false
rename /f /h   | first all        | needs 4294967297
rename /f /h   | none             | needs 4294967296
rename /f /a   | none             | ok p4.0:a,1,1
rename /f /w/a | no_block all     | nospace dir
rename /f /w/a | no_block         | segments
rename /f /w/a | first all -s0.3  | clear 0
rename /f /w/a | former all -s24  | needs 12884902080
rename /f /h   | first all -i5    | needs 10737418245
rename /f /a   | first all -s4    | needs 12884901920
rename /f /d/a | first all -i2    | needs 10737418242
";

#[test]
fn moves_go_by_what_is_at_hand(rt: HostRuntime) -> Result<(), Fail> {
    expect(&rt, rt.alloc(), &setup(), MOVED_BY_WHAT_IS_AT_HAND)
}
