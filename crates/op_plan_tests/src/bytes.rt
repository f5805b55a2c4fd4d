// Plans of operations on file bytes over a small disk, with the sectors that they write: all worked out by hand from the formats of sectors.
// A file that is written or cut has its time in its record, the bytes 100 to 107 of its inode.
use crate::bytes_asked::{Setup, Telling, expect};
use plan_disks::Segment;
use std::test::Fail;

// Segment 0. Blocks 0, 1, 3 and 5 were a directory's, 4 is one's; 2, 7 and 16 to 30 hold bytes; 6, 8 to 15 and from 31 on all are free.
const FIRST: Segment = Segment {
    number: 0,
    version: 255,
    inodes: 0xff,
    others: 0,
    states: "0:9a4b 4:55555515",
    large: false,
};

// The same where all that are free were a directory's, and the large block is in use.
const FULL_FIRST: Segment = Segment {
    others: 0xaa,
    states: "0:9a6b 4:55555595",
    large: true,
    ..FIRST
};

// Segment 1. Blocks 1,024 to 1,039 hold bytes, 1,044 is a directory's and 1,045 was; all others are free, but the large one.
const SECOND: Segment = Segment {
    number: 1,
    version: 7,
    inodes: 2,
    others: 0,
    states: "0:55555555000b",
    large: true,
};

const FULL_SECOND: Segment = Segment {
    others: 0xaa,
    states: "0:55555555aaab",
    ..SECOND
};

static SEGMENTS: [(&str, Segment); 4] = [
    ("first", FIRST),
    ("full_first", FULL_FIRST),
    ("second", SECOND),
    ("full_second", FULL_SECOND),
];

// The root in small block 4, then the files /a, /b, /e, /k and /g, the directory /d and the link /l. /a has 5 bytes in block 2, /b 4,090 in
// block 7, /e none, /k 61,440 in blocks 16 to 30, and /g 65,538 in blocks 1,024 to 1,039 and in large block 1. /d is in block 1,044. /a and
// /g were written, /a at tick 7 of run 1.
const DISK: &str = "
s4+8
s4 8:010000000101'a 80:020000000101'b 152:030000000101'e 224:040000000101'k 296:410000000101'g 368:050000000102'd 440:060000000103'l
i0 0:09 8:020001000100000007 32:04
i1 0:03 8:010001000100000005 24:020000000100000002 100:0700000001
i2 0:ff 8:0100010001000000fa0f 24:030000000100000007
i3 0:01 8:010001 24:0400000001
i4 0:06 8:010001000f00000000f0 24:0500000001 32:10000000110000001200000013000000 48:14000000150000001600000017000000 \
    64:18000000190000001a0000001b000000 80:1c0000001d0000001e
i5 0:01 8:020001000100000001 24:07000000010000001404
i6 0:01 8:030001000000000001 24:0800000001 128:'x
i65 0:ff01 8:0100010010000000020001 24:0600000001 32:00040000010400000204000003040000 48:04040000050400000604000007040000 \
    64:08040000090400000a0400000b040000 80:0c0400000d0400000e0400000f04000002 100:0102030405060708
s2=7f 0:'hello
s7.6=00 511:'y
s7.7=62 506:7f7f7f7f7f7f
s30.7=6b
s1039.7=00 511:'p
l1=7f 0:'yz
";

// What is told of plans over it.
fn setup() -> Setup {
    Setup {
        disk: DISK,
        segments: &SEGMENTS,
        telling: Telling::Written,
    }
}

// When /a was written.
const WRITTEN: &str = "
write /a 1 XY            | none                  | ok, 10737418241 v4 100:5802000003000000, 12884901904=6858596c6f(7f*507)
write /a 0 world         | none                  | ok, 10737418241 v4 100:5802000003000000, 12884901904=776f726c64(00*507)
write /a 5 !!            | none                  | ok, 10737418241 v4 16:07 100:5802000003000000, 12884901904=68656c6c6f2121(7f*505)
write /b 4090 0123456789 | first second          | ok, 4294967296 v256 17:5b, 10737418242 v256 12:02 16:0410 36:06 100:5802000003000000, \
    12884901951=(62*506)303132333435, 12884901936=36373839(00*508)
write /e 0 hi            | first second all      | ok, 4294967296 v256 17:5b, 10737418243 v2 12:01 16:02 32:06 100:5802000003000000, \
    12884901936=6869(00*510)
write /e 0 hi            | full_first second all | ok, 4294967297 v8 20:01, 10737418243 v2 12:01 16:02 32:1004 100:5802000003000000, \
    12884910208=6869(00*510)
write /g 65537 Z         | none                  | ok, 10737418305 v512 100:5802000003000000, 289910292480=795a(7f*510)
write /a 5               | none                  | ok, 10737418241 v4 100:5802000003000000
fill /a 4 600 2e         | none                  | ok, 10737418241 v4 16:5c02 100:5802000003000000, 12884901904=68656c6c(2e*508), \
    12884901905=(2e*92)(00*420)
fill /e 0 5000 ff        | first second          | ok, 4294967296 v256 17:5b01, 10737418243 v2 12:02 16:8813 32:06 36:08 100:5802000003000000, \
    12884901936=(ff*512), 12884901937=(ff*512), 12884901938=(ff*512), 12884901939=(ff*512), 12884901940=(ff*512), 12884901941=(ff*512), \
    12884901942=(ff*512), 12884901943=(ff*512), 12884901952=(ff*512), 12884901953=(ff*392)(00*120)
fill /k 61430 4110 2e    | first second all      | ok, 4294967296 v256 17:5b 272:01, 10737418244 v7 12:10 16:040001 92:06 96:01 \
    100:5802000003000000, 12884902135=(6b*502)(2e*10), 12884901936=(2e*512), 12884901937=(2e*512), 12884901938=(2e*512), 12884901939=(2e*512), \
    12884901940=(2e*512), 12884901941=(2e*512), 12884901942=(2e*512), 12884901943=(2e*512), 287762808832=(2e*4)(00*508)
fill /g 65538 1000 2e    | none                  | ok, 10737418305 v512 16:ea03 100:5802000003000000, 289910292480=797a(2e*510), \
    289910292481=(2e*490)(00*22)
";

#[test]
fn bytes_are_written_as_worked_out_by_hand(rt: HostRuntime) -> Result<(), Fail> {
    expect(&rt, rt.alloc(), &setup(), WRITTEN)
}

const CUT: &str = "
truncate /a 0     | first second     | ok, 4294967296 v256 16:8a, 10737418241 v4 12:00 16:00 32:00 100:5802000003000000, freed \
    12884901904..12884901911
truncate /b 100   | none             | ok, 10737418242 v256 16:6400 100:5802000003000000
truncate /k 57345 | none             | ok, 10737418244 v7 16:01e0 100:5802000003000000
truncate /k 57344 | first second all | ok, 4294967296 v256 23:05, 10737418244 v7 12:0e 17:e0 88:00 100:5802000003000000, freed \
    12884902128..12884902135
truncate /g 65537 | none             | ok, 10737418305 v512 16:01 100:5802000003000000
truncate /g 65536 | first second     | ok, 4294967297 v8 272:00, 10737418305 v512 16:00 96:00 100:5802000003000000, freed 289910292480..289910294527
truncate /g 0     | first second     | ok, 4294967297 v8 16:(00*4) 272:00, 10737418305 v512 12:00 16:00 18:00 33:00 36:0000 40:0000 44:0000 48:0000 \
    52:0000 56:0000 60:0000 64:0000 68:0000 72:0000 76:0000 80:0000 84:0000 88:0000 92:0000 96:00 100:5802000003000000, freed \
    12884910080..12884910207, freed 289910292480..289910294527
truncate /a 5     | none             | ok, 10737418241 v4 100:5802000003000000
truncate /a 6     | first second all | badoffset
truncate /a 0     | none             | needs 4294967296
truncate /g 65536 | none             | needs 4294967297
";

#[test]
fn files_are_cut_as_worked_out_by_hand(rt: HostRuntime) -> Result<(), Fail> {
    expect(&rt, rt.alloc(), &setup(), CUT)
}

const READ: &str = "
read /a 0 100         | none                       | data 68656c6c6f
read /b 3583 3        | none                       | data 796262
read /b 4000 100      | none                       | data \
    626262626262626262626262626262626262626262626262626262626262626262626262626262626262626262626262626262626262626262626262626262626262626262626262626262626262626262626262626262626262
read /g 65535 9       | none                       | data 70797a
read /a 5 1           | none                       | data
read /a 6 1           | none                       | badoffset
read /b 0 1           | none                       | needs 12884901944
write /b 100 x        | first second all           | needs 12884901944
write /e 0 hi         | none                       | segments
write /e 0 hi         | full_first full_second all | nospace data 2015
fill /k 61440 4100 00 | full_first second          | segments
fill /k 61440 4100 00 | full_first second all      | nospace large
write /a 6 x          | first second all           | badoffset
fill /a 5 1114108 00  | first second all           | toobig
write /d 0 x          | first second all           | isdir
write /l 0 x          | first second all           | inval
write /z 0 x          | first second all           | noent
";

#[test]
fn files_are_read_and_refused_as_worked_out_by_hand(rt: HostRuntime) -> Result<(), Fail> {
    expect(&rt, rt.alloc(), &setup(), READ)
}

// With no segment held, at other times too. What the bytes 100 to 107 come to is in the record wherever a file is written or cut, also
// where they stay.
const TIMED: &str = "
# At its very time, where size and blocks stay too.
write /a 1 XY      | none @1.7                   | ok, 10737418241 v4 100:0700000001000000, 12884901904=6858596c6f(7f*507)
# The bytes that stand there already.
write /a 1 ell     | none @1.7                   | ok, 10737418241 v4 100:0700000001000000, 12884901904=68656c6c6f(7f*507)
fill /a 2 2 6c     | none @1.7                   | ok, 10737418241 v4 100:0700000001000000, 12884901904=68656c6c6f(7f*507)
write /a 5 !       | none @1.7                   | ok, 10737418241 v4 16:06 100:0700000001000000, 12884901904=68656c6c6f21(7f*506)
truncate /a 4      | none @1.7                   | ok, 10737418241 v4 16:04 100:0700000001000000
# To the present size.
truncate /a 5      | none @1.7                   | ok, 10737418241 v4 100:0700000001000000
# The same tick of the next run.
truncate /a 5      | none @2.7                   | ok, 10737418241 v4 100:0700000002000000
truncate /b 4090   | none                        | ok, 10737418242 v256 100:5802000003000000
truncate /g 65538  | none @134678021.67305985    | ok, 10737418305 v512 100:0102030405060708
truncate /e 0      | none @0.0                   | ok, 10737418243 v2 100:(00*8)
# No bytes: at the end, before it, and of a file that has none.
write /a 5         | none @1.7                   | ok, 10737418241 v4 100:0700000001000000
write /a 0         | none @0.0                   | ok, 10737418241 v4 100:(00*8)
write /e 0         | none @4294967295.4294967295 | ok, 10737418243 v2 100:(ff*8)
fill /k 61440 0 09 | none @0.1                   | ok, 10737418244 v7 100:01(00*7)
# What is refused has no record.
write /a 6         | none                        | badoffset
truncate /a 6      | none                        | badoffset
write /d 0         | none                        | isdir
truncate /l 1      | none                        | inval
fill /z 0 0 09     | none                        | noent
read /a 5 0        | none                        | data
";

#[test]
fn what_is_written_or_cut_has_its_time_in_the_record(rt: HostRuntime) -> Result<(), Fail> {
    expect(&rt, rt.alloc(), &setup(), TIMED)
}
