// Writes and fills over a small disk whose sectors were worked out by hand: the edits, and what is said where something is missing.
use crate::bytes_asked::{Setup, Telling, expect};
use plan_disks::Segment;
use std::test::Fail;

// A segment of which blocks 4, 6 and 7 and the large one are free; blocks 0 and 1 are or were a directory's.
const FEW: Segment = Segment {
    number: 0,
    version: 1,
    inodes: u64::MAX,
    others: 0b01_01_01_01,
    states: "0:5b04",
    large: false,
};

// A segment of which nothing is free; blocks 2 and 3 are or were a directory's.
const FULL: Segment = Segment {
    states: "0:e5",
    large: true,
    ..FEW
};

static SEGMENTS: [(&str, Segment); 2] = [("few", FEW), ("full", FULL)];

// The root in block 0. /a has the bytes `abcde` in block 2, /e is empty, /k has 65,536 bytes in blocks 32 to 47, and /g two more than these,
// in blocks 16 to 31 and large block 3; /d is a directory, /l a link. The inode of /m isn't cached, that of /f is free, and that of /x is a
// link's, though its entry says that it is a file's.
const DISK: &str = "
s0+8
s0 8:010000000101'a 80:020000000101'e 152:030000000102'd 224:040000000103'l 296:050000000101'g 368:060000000101'm 440:070000000101'f
s0.1 8:080000000101'k 80:090000000101'x
i0 8:020001000100000009
i1 8:010001000100000005 32:02
i2 8:010001
i3 8:020001
i4 8:030001000000000003 128:'a/b
i5 8:0100010010000000020001 32:10000000110000001200000013000000 48:14000000150000001600000017000000 64:18000000190000001a0000001b000000 \
    80:1c0000001d0000001e0000001f00000004
i7
i8 8:0100010010000000000001 32:20000000210000002200000023000000 48:24000000250000002600000027000000 64:28000000290000002a0000002b000000 \
    80:2c0000002d0000002e0000002f
i9 8:030001000000000003 128:'a/b
s2 0:'abcde
l3=07 0:'yz
";

// What is told of plans over it.
fn setup() -> Setup {
    Setup {
        disk: DISK,
        segments: &SEGMENTS,
        telling: Telling::Edits,
    }
}

const WRITTEN: &str = "
write /a 1 XY     | none     | ok i1:1,1,5,1,2,0,0 at 3.600 s2.0:6158596465(00*507)
write /a 0 vwxyz  | none     | ok i1:1,1,5,1,2,0,0 at 3.600 s2.0:767778797a(00*507)
write /a 5 ff     | none     | ok i1:1,1,7,1,2,0,0 at 3.600 s2.0:61626364656666(00*505)
write /a 6 x      | none     | badoffset
write /a 5        | none     | ok i1:1,1,5,1,2,0,0 at 3.600
write /e 0 hi     | few      | ok u4:FileBytes i2:1,1,2,1,4,0,0 at 3.600 s4.0:6869(00*510)
write /e 0 hi     | none     | segments
write /e 0 hi     | full     | segments
write /e 0 hi     | full all | nospace data 2
write /e 1 hi     | few      | badoffset
write /d 0 x      | few      | isdir
write / 0 x       | few      | isdir
write /l 0 x      | few      | inval
write /z 0 x      | few      | noent
write /f 0 x      | few      | noent
write /a/b 0 x    | few      | notdir
write /m 0 x      | few      | needs 10737418246
write /x 0 x      | few      | inval
write /g 65536 AB | none     | ok i5:1,1,65538,16,16,31,4 at 3.600 l3.0:4142(00*510)
write /g 65537 B  | none     | ok i5:1,1,65538,16,16,31,4 at 3.600 l3.0:7942(07*510)
write /g 65538 C  | none     | ok i5:1,1,65539,16,16,31,4 at 3.600 l3.0:797a43(07*509)
write /k 65536 Q  | few      | ok g0:true i8:1,1,65537,16,32,47,1 at 3.600 l0.0:51(00*511)
write /k 65536 Q  | full all | nospace large
write /k 65536 Q  | full     | segments
write /k 65535 Q  | full     | needs 12884902271
";

#[test]
fn writes_to_a_small_disk(rt: HostRuntime) -> Result<(), Fail> {
    expect(&rt, rt.alloc(), &setup(), WRITTEN)
}

const OF_ONE_BYTE: &str = "
fill /e 0 513 05        | few     | ok u4:FileBytes i2:1,1,513,1,4,0,0 at 3.600 s4.0:(05*512) s4.1:05(00*511)
fill /e 0 4097 05       | few     | ok u4:FileBytes u6:FileBytes i2:1,1,4097,2,4,0,0 at 3.600 s4.0:(05*512) s4.1:(05*512) s4.2:(05*512) \
    s4.3:(05*512) s4.4:(05*512) s4.5:(05*512) s4.6:(05*512) s4.7:(05*512) s6.0:05(00*511)
fill /e 0 12289 05      | few all | nospace data 2
fill /e 0 12289 05      | few     | segments
fill /a 5 1114107 00    | none    | segments
fill /a 5 1114108 00    | none    | toobig
fill /a 5 4294967295 00 | none    | toobig
fill /a 6 4294967295 00 | none    | badoffset
fill /a 4 600 09        | none    | ok i1:1,1,604,1,2,0,0 at 3.600 s2.0:61626364(09*508) s2.1:(09*92)(00*420)
fill /a 1 3 07          | none    | ok i1:1,1,5,1,2,0,0 at 3.600 s2.0:6107070765(00*507)
fill /a 0 0 07          | none    | ok i1:1,1,5,1,2,0,0 at 3.600
fill /k 65536 1 08      | few     | ok g0:true i8:1,1,65537,16,32,47,1 at 3.600 l0.0:08(00*511)
fill /d 0 0 08          | few     | isdir
";

#[test]
fn fills_of_a_small_disk(rt: HostRuntime) -> Result<(), Fail> {
    expect(&rt, rt.alloc(), &setup(), OF_ONE_BYTE)
}
