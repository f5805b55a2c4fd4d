// Whole plans over a small disk, with what they write: sectors, versions and bytes worked out by hand from the format.
use crate::bytes_asked::{Setup, Telling};
use crate::names_asked::expect;
use plan_disks::Segment;
use std::test::Fail;

// Segment 0: inodes 0 to 7, blocks 4 to 7 of directories, and 0 and 8 of bytes.
const FIRST: Segment = Segment {
    number: 0,
    version: 10,
    inodes: 255,
    others: 0,
    states: "0:01ff01",
    large: false,
};

// The same where block 24 was a directory's.
const FORMER_FIRST: Segment = Segment {
    number: 0,
    version: 10,
    inodes: 255,
    others: 0,
    states: "0:01ff01 6:02",
    large: false,
};

// Segment 1: inode 64, its 16 blocks from the sixth on, and its large block.
const SECOND: Segment = Segment {
    number: 1,
    version: 20,
    inodes: 1,
    others: 0,
    states: "1:5055555505",
    large: true,
};

static SEGMENTS: [(&str, Segment); 3] = [
    ("first", FIRST),
    ("former_first", FORMER_FIRST),
    ("second", SECOND),
];

// Inodes 0 to 7 and 64, then the directories' blocks 4 to 6, and block 24, whose version is left of a directory. The root has `f`, `d`,
// a gap, `l`, `e`, `h`, `w` and `v`; `d` has `g`, a second name of `f`, and `s`, a file in blocks 0 and 8. `l` is a link to `/f`. The
// directory `e` has an empty block, `v` has none, and `w` has block 7, which 56 more names of `f` fill. `h` has blocks 1030 to 1045 and
// large block 1. `f`, `s` and `h` were written.
const DISK: &str = "
# Inode 65, which was never used, and the blocks 1 to 6.
i65
s1+48
i0 0:05 8:020001000100000007 32:04
i1 0:03 8:01003a 24:0200000001 100:0400000001
i2 0:04 8:020001000100000002 24:030000000100000005
i3 0:02 8:030001000000000002 24:0400000001 128:'/f
i4 0:06 8:0200010001 24:050000000100000006
i5 0:39 8:020001000100000038 24:060000000100000007
i6 0:01 8:020001 24:0700000001
i7 0:08 8:01000100020000008813 24:08000000010000000000000008 100:0900000002
i8 0:03
i64 0:2c01 8:0100010010000000701101 24:0100000002000000 32:06040000070400000804000009040000 48:0a0400000b0400000c0400000d040000 \
    64:0e0400000f0400001004000011040000 80:1204000013040000140400001504000002 100:0102030401010101
s4 0:09 8:010000000101'f 80:020000000102'd 224:030000000103'l 296:040000000102'e 368:400000000101'h 440:050000000102'w
s4.1 0:01 8:060000000102'v
s5 0:0c 8:010000000101'g 80:070000000101's
s6 0:1e
s24 0:06
full 7
";

// What is told of plans over it.
fn setup() -> Setup {
    Setup {
        disk: DISK,
        segments: &SEGMENTS,
        telling: Telling::Written,
    }
}

const MADE: &str = "
create /a                                    | first second all             | ok, 4294967296 v11 9:01, 10737418240 v6 16:08, 10737418248 v4 8:01 \
    10:01 24:07 28:03, 12884901920 v10 152:08 156:010161
mkdir /e/abc                                 | first second all             | ok, 4294967296 v11 9:01, 10737418244 v7 16:01, 10737418248 v4 8:02 \
    10:01 24:07 28:03, 12884901936 v31 8:08 12:0302616263
symlink /d/y /h/x                            | first second all             | ok, 4294967296 v11 9:01, 10737418242 v5 16:03, 10737418248 v4 8:03 \
    10:01 16:04 24:07 28:03 128:2f682f78, 12884901928 v13 152:08 156:010379
# A name of 64 bytes.
create /0123456789abcdef0123456789abcdef0123456789abcdef0123456789abcdef | first                        | ok, 4294967296 v11 9:01, 10737418240 v6 \
    16:08, 10737418248 v4 8:01 10:01 24:07 28:03, 12884901920 v10 152:08 \
    156:400130313233343536373839616263646566303132333435363738396162636465663031323334353637383961626364656630313233343536373839616263646566
# Inode 65 of a segment that is held alone.
create /a                                    | second                       | ok, 4294967297 v21 8:03, 10737418240 v6 16:08, 10737418305 v1 8:01 \
    10:01 24:07 28:03, 12884901920 v10 152:41 156:010161
# A second block for a full directory: one that was never a directory's, and one that was.
create /w/a                                  | first second all             | ok, 4294967296 v11 9:01 16:0d, 10737418245 v58 12:02 16:39 36:01, \
    10737418248 v4 8:01 10:01 24:07 28:03, 12884901896 v1 8:08 12:010161
create /w/a                                  | former_first second all      | ok, 4294967296 v11 9:01 22:03, 10737418245 v58 12:02 16:39 36:18, \
    10737418248 v4 8:01 10:01 24:07 28:03, 12884902080 v7 8:08 12:010161
# A first block for a directory.
mkdir /v/b                                   | first second all             | ok, 4294967296 v11 9:01 16:0d, 10737418246 v2 12:01 16:01 32:01, \
    10737418248 v4 8:02 10:01 24:07 28:03, 12884901896 v1 8:08 12:010262
create /w/a                                  | first second all -s1.3       | clear 1
create /w/a                                  | second                       | clear 1024
create /w/a                                  | former_first second all -s24 | needs 12884902080
create /a                                    | none                         | segments
create /a                                    | all                          | nospace inode
";

#[test]
fn nodes_are_made_as_worked_out_by_hand(rt: HostRuntime) -> Result<(), Fail> {
    expect(&rt, rt.alloc(), &setup(), MADE)
}

const ADDED_AND_REMOVED: &str = "
link /f /a   | none                    | ok, 10737418240 v6 16:08, 10737418241 v4 10:3b, 12884901920 v10 152:01 156:010161
link /l /w/k | former_first second all | ok, 4294967296 v11 22:03, 10737418243 v3 10:02, 10737418245 v58 12:02 16:39 36:18, 12884902080 v7 8:03 \
    12:01036b
unlink /f    | none                    | ok, 10737418240 v6 16:06, 10737418241 v4 10:39, 12884901920 v10 8:00 12:000000
unlink /l    | first second all        | ok, 4294967296 v11 8:f7, 10737418240 v6 16:06, 10737418243 v3 8:00 10:00 16:00 24:00 28:00 128:0000, \
    12884901920 v10 224:00 228:000000
unlink /d/s  | first second all        | ok, 4294967296 v11 8:7f 16:00 18:00, 10737418242 v5 16:01, 10737418247 v9 8:00 10:00 12:00 16:0000 24:00 \
    28:00 36:00 100:00 104:00, 12884901928 v13 80:00 84:000000, freed 12884901888..12884901895, freed 12884901952..12884901959
unlink /h    | first second all        | ok, 4294967297 v21 8:00 17:(00*5) 272:00, 10737418240 v6 16:06, 10737418304 v301 8:00 10:00 12:00 16:000000 \
    24:00 28:00 32:0000 36:0000 40:0000 44:0000 48:0000 52:0000 56:0000 60:0000 64:0000 68:0000 72:0000 76:0000 80:0000 84:0000 88:0000 92:0000 \
    96:00 100:(00*8), 12884901920 v10 368:00 372:000000, freed 12884910128..12884910255, freed 289910292480..289910294527
unlink /h    | first                   | needs 4294967297
rmdir /e     | first second all        | ok, 4294967296 v11 8:ef 17:ef, 10737418240 v6 16:06, 10737418244 v7 8:00 10:00 12:00 24:00 28:00 32:00, \
    12884901920 v10 296:00 300:000000
rmdir /v     | first second all        | ok, 4294967296 v11 8:bf, 10737418240 v6 16:06, 10737418246 v2 8:00 10:00 24:00 28:00, 12884901921 v2 8:00 \
    12:000000
rmdir /d     | first second all        | notempty
";

#[test]
fn names_are_added_and_removed_as_worked_out_by_hand(rt: HostRuntime) -> Result<(), Fail> {
    expect(&rt, rt.alloc(), &setup(), ADDED_AND_REMOVED)
}

const CHANGED: &str = "
# In its directory an entry keeps its place.
rename /f /fgh | none                    | ok, 12884901920 v10 12:03 15:6768
rename /v /z   | none                    | ok, 12884901921 v2 14:7a
rename /d/s /t | none                    | ok, 10737418240 v6 16:08, 10737418242 v5 16:01, 12884901920 v10 152:07 156:010174, 12884901928 v13 80:00 \
    84:000000
rename /d /e/q | none                    | ok, 10737418240 v6 16:06, 10737418244 v7 16:01, 12884901920 v10 80:00 84:000000, 12884901936 v31 8:02 \
    12:010271
rename /l /w/n | first second all        | ok, 4294967296 v11 16:0d, 10737418240 v6 16:06, 10737418245 v58 12:02 16:39 36:01, 12884901896 v1 8:03 \
    12:01036e, 12884901920 v10 224:00 228:000000
rename /l /v/n | former_first second all | ok, 4294967296 v11 22:03, 10737418240 v6 16:06, 10737418246 v2 12:01 16:01 32:18, 12884901920 v10 224:00 \
    228:000000, 12884902080 v7 8:03 12:01036e
# Onto a file's last name, and onto one of many.
rename /h /d/s | first second all        | ok, 4294967296 v11 8:7f 16:00 18:00, 10737418240 v6 16:06, 10737418247 v9 8:00 10:00 12:00 16:0000 24:00 \
    28:00 36:00 100:00 104:00, 12884901920 v10 368:00 372:000000, 12884901928 v13 80:40, freed 12884901888..12884901895, freed \
    12884901952..12884901959
rename /d/s /f | none                    | ok, 10737418241 v4 10:39, 10737418242 v5 16:01, 12884901920 v10 8:07, 12884901928 v13 80:00 84:000000
# Onto an empty directory.
rename /d /e   | first second all        | ok, 4294967296 v11 8:ef 17:ef, 10737418240 v6 16:06, 10737418244 v7 8:00 10:00 12:00 24:00 28:00 32:00, \
    12884901920 v10 80:00 84:000000 296:02
rename /f /d/g | none                    | ok
rename /d /d/x | first second all        | inval
";

#[test]
fn names_are_changed_as_worked_out_by_hand(rt: HostRuntime) -> Result<(), Fail> {
    expect(&rt, rt.alloc(), &setup(), CHANGED)
}
