// Faults of inodes: the root, counts, directories reached twice, blocks.
use crate::disks::first_other;
use std::test::Fail;

const NODES: &str = "
# Inode 0 is free, and so nothing else is reached.
i0 8:0000000000 16:00                        | 0 0 0 0 0 | k0:7 k0:8 k1:7 k1:8 k1:9 i0:1
# It is an empty file, which is reached and has no name.
i0 8:0100010000 16:00                        | 0 0 1 0 0 | k0:7 k0:8 k1:7 k1:8 k1:9 i0:1 i0:4
# Counts of entries and of links.
i0 16:05                                     | 20 2 2 1 1 | i0:4
i1 16:00                                     | 20 2 2 1 1 | i1:4
i2 10:03                                     | 20 2 2 1 1 | i2:4
i3 10:02                                     | 20 2 2 1 1 | i3:4
# The root is named; `d` is named twice; `d` names itself.
s1 80:000000000102'r; i1 16:02               | 20 2 2 1 1 | i0:5
s0 296:010000000102'e; i0 16:05              | 20 2 2 1 1 | i1:5
s1 80:010000000102'c; i1 16:02               | 20 2 2 1 1 | i1:5
# A cycle of two directories that the root leads to.
s1 80:050000000102'e; i1 16:02; i5 8:0200010001 16:01 32:05; s5 8:010000000102'd; k0 8:2f 17:0e | 21 3 2 1 1 | i1:5
";

const BLOCKS: &str = "
# A fault of each kind but the first, which leaves no directory that the others could be told of.
k0 8:1f; k1 272:00; i1 16:02; i2 36:0008; s0 296:070000000101'x; s0.1 8:01; s1 80:010000000102'c | 19 2 2 1 1 | k0:7 k0:8 k1:9 i0:4 i1:5 i2:6 s0:3 \
    s0.1:2
# A small block past the last, alone and with the state of the one that it isn't.
i2 36:0008; k0 16:1f                         | 19 2 2 1 1 | i2:6
i2 36:0008                                   | 19 2 2 1 1 | k0:8 i2:6
# A large block past the last.
i64 96:03; k1 272:00                         | 20 2 2 0 1 | i64:6
i64 96:03                                    | 20 2 2 0 1 | k1:9 i64:6
# A block of two files: it is the later one's fault.
i2 36:0004; k0 16:1f                         | 19 2 2 1 1 | i64:6
# A block used three times, twice by `f`.
i2 32:000400000004; k0 16:0f                 | 18 2 2 1 1 | i2:6 i64:6
# A directory's block that a file has too.
i2 32:01; k0 16:4f                           | 19 2 2 1 1 | i2:6
# A file's block that a later directory has too: of zeros, and of bytes that are no directory's.
s0 296:050000000102'e; i0 16:05; i5 8:0200010001 32:02; k0 8:2f | 20 3 2 1 1 | i5:6
s0 296:050000000102'e; s2 9:ff; i0 16:05; i5 8:0200010001 32:02; k0 8:2f | 20 3 2 1 1 | i5:6 s2:2
# Two directories with one block, whose entry counts for each.
s0 296:050000000102'e; i0 16:05; i2 10:03; i5 8:0200010001 16:01 32:01; k0 8:2f | 20 3 2 1 1 | i5:6
# A directory that has its block twice, and so its name.
i1 12:02 16:02 32:0100000001; i2 10:03       | 20 2 2 1 1 | i1:6 s1:2
# A large block of two files.
s0 296:410000000101'k; i0 16:05; i65 8:0100010010 16:010001 \
    32:100400001104000012040000130400001404000015040000160400001704000018040000190400001a0400001b0400001c0400001d0400001e0400001f04 96:02; k1 8:03 \
    20:55555555 | 36 2 3 1 1 | i65:6
";

#[test]
fn nodes_are_told_as_they_are(rt: HostRuntime) -> Result<(), Fail> {
    let other = first_other(&rt, rt.alloc(), NODES)?;
    assert!(rt; other.is_empty(), "{other}");
    Ok(())
}

#[test]
fn blocks_are_told_as_they_are(rt: HostRuntime) -> Result<(), Fail> {
    let other = first_other(&rt, rt.alloc(), BLOCKS)?;
    assert!(rt; other.is_empty(), "{other}");
    Ok(())
}
