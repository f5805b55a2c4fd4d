// Reads and truncates over a small disk whose sectors were worked out by hand: the replies, and the edits.
use crate::bytes_asked::{Setup, Telling, expect};
use plan_disks::Segment;
use std::test::Fail;

// Segments 0 and 1, whose bits don't count here.
const FIRST: Segment = Segment {
    number: 0,
    version: 0,
    inodes: 0,
    others: 0,
    states: "",
    large: false,
};

const SECOND: Segment = Segment { number: 1, ..FIRST };

static SEGMENTS: [(&str, Segment); 2] = [("first", FIRST), ("second", SECOND)];

// The root in block 0, with the files /a, /b, /c, /e, /g and /m, the directory /d and the link /l. The entry of /n tells a file too, but
// leads to the inode of the link. /a has 5 bytes in block 2, /b 600 in block 3, /c 5,000 in blocks 4 and 1,030, /e none, and /g 66,000 in
// blocks 8 to 23 and in large block 1. The inode of /m isn't cached, nor are some sectors of the files.
const DISK: &str = "
s0+8
s0 8:010000000101'a 80:040000000101'b 152:050000000101'c 224:020000000102'd
s0.1 8:070000000101'e 80:060000000101'g 152:030000000103'l 224:080000000101'm 296:030000000101'n
i0 8:020001000100000009
i1 8:010001000100000005 32:02
i2 8:020001
i3 8:030001000000000001 128:'a
i4 8:01000100010000005802 32:03
i5 8:01000100020000008813 32:040000000604
i6 8:0100010010000000d00101 32:08000000090000000a0000000b000000 48:0c0000000d0000000e0000000f000000 64:10000000110000001200000013000000 \
    80:1400000015000000160000001700000002
i7 8:010001
s2 0:'hello
s3 511:'Y
s3.1 0:'Z 87:'E
s4 511:'K
s4.7 511:'M
s1030 0:'N
s1030.1 391:'L
s23.7 511:'P
l1 0:'Q 463:'R
";

// What is told of plans over it.
fn setup() -> Setup {
    Setup {
        disk: DISK,
        segments: &SEGMENTS,
        telling: Telling::Edits,
    }
}

const SHOWN: &str = "
read /a 0 5     | none | data 68656c6c6f
read /a 0 100   | none | data 68656c6c6f
read /a 1 3     | none | data 656c6c
read /a 0 0     | none | data
read /a 5 5     | none | data
read /a 6 0     | none | badoffset
read /b 511 2   | none | data 595a
read /b 598 10  | none | data 0045
read /b 600 1   | none | data
read /b 601 1   | none | badoffset
read /c 510 2   | none | data 004b
read /c 511 2   | none | needs 12884901921
read /c 1024 0  | none | data
read /c 4095 2  | none | data 4d4e
read /c 4998 9  | none | data 004c
read /e 0 9     | none | data
read /g 65535 2 | none | data 5051
read /g 65998 5 | none | data 0052
read /g 0 1     | none | needs 12884901952
read /d 0 1     | none | isdir
read /l 0 1     | none | inval
read /n 0 1     | none | inval
read / 0 1      | none | isdir
read /x 0 1     | none | noent
read /a/x 0 1   | none | notdir
read /m 0 1     | none | needs 10737418248
";

#[test]
fn reads_show_the_bytes(rt: HostRuntime) -> Result<(), Fail> {
    expect(&rt, rt.alloc(), &setup(), SHOWN)
}

const FREED: &str = "
truncate /a 5     | none         | ok i1:1,1,5,1,2,0,0 at 3.600
truncate /a 6     | first second | badoffset
truncate /a 3     | none         | ok i1:1,1,3,1,2,0,0 at 3.600
truncate /a 0     | none         | needs 4294967296
truncate /a 0     | first        | ok u2:Unused i1:1,1,0,0,0,0,0 at 3.600
truncate /c 4097  | none         | ok i5:1,1,4097,2,4,0,0 at 3.600
truncate /c 4096  | first        | needs 4294967297
truncate /c 4096  | first second | ok u1030:Unused i5:1,1,4096,1,4,0,0 at 3.600
truncate /c 0     | first        | needs 4294967297
truncate /c 0     | first second | ok u4:Unused u1030:Unused i5:1,1,0,0,0,0,0 at 3.600
truncate /e 0     | none         | ok i7:1,1,0,0,0,0,0 at 3.600
truncate /e 1     | none         | badoffset
truncate /g 66000 | none         | ok i6:1,1,66000,16,8,23,2 at 3.600
truncate /g 65537 | none         | ok i6:1,1,65537,16,8,23,2 at 3.600
truncate /g 65536 | first        | needs 4294967297
truncate /g 65536 | first second | ok g1:false i6:1,1,65536,16,8,23,0 at 3.600
truncate /g 61440 | none         | needs 4294967296
truncate /g 61440 | first second | ok u23:Unused g1:false i6:1,1,61440,15,8,0,0 at 3.600
truncate /d 0     | first second | isdir
truncate /l 0     | first second | inval
truncate /n 0     | first second | inval
truncate / 0      | first second | isdir
truncate /x 0     | first second | noent
truncate /a/x 0   | first second | notdir
truncate /m 0     | first second | needs 10737418248
";

#[test]
fn truncates_free_what_is_past_the_end(rt: HostRuntime) -> Result<(), Fail> {
    expect(&rt, rt.alloc(), &setup(), FREED)
}
