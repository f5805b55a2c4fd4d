// Faults of segments, and of the sectors of directories.
use crate::disks::first_other;
use std::test::Fail;

const SEGMENTS: &str = "
                                             | 20 2 2 1 1 |
# A bit without its inode; an inode that is reached without its bit.
k0 8:1f                                      | 20 2 2 1 1 | k0:7
k0 8:0b                                      | 20 2 2 1 1 | k0:7
# A file that is not reached, without its bit and with it.
i5 8:010001                                  | 20 2 2 1 1 | k0:7
i5 8:010001; k0 8:2f                         | 20 2 2 1 1 | k0:7
k0 8:1f; k1 8:03                             | 20 2 2 1 1 | k0:7 k1:7
# A directory that is not reached names `f` once more: that doesn't count, nor does its block.
i5 8:0200010001 16:01 32:05; s5 8:020000000101'q; k0 8:2f 17:0e | 20 2 2 1 1 | k0:7 k0:8
# Two directories that name each other and that nothing else names.
i5 8:0200010001 16:01 32:05; i6 8:0200010001 16:01 32:06; s5 8:060000000102'a; s6 8:050000000102'b; k0 8:6f 17:3e | 20 2 2 1 1 | k0:7 k0:8
# A file's block that is free, and one that is a directory's.
k0 16:4f                                     | 20 2 2 1 1 | k0:8
k0 16:7f                                     | 20 2 2 1 1 | k0:8
# The root's block that is a file's, and one that was a directory's.
k0 16:5d                                     | 20 2 2 1 1 | k0:8
k0 16:5e                                     | 20 2 2 1 1 | k0:8
# A block that nobody has is a file's.
k0 17:12                                     | 20 2 2 1 1 | k0:8
# A segment outside its grammar marks nothing.
k1 300:01                                    | 20 2 2 1 1 | k1:7 k1:8 k1:9
# The greatest version of the first run, and the next one, which is too great.
k0 0:000002                                  | 20 2 2 1 1 |
k0 0:010002                                  | 20 2 2 1 1 | k0:8
i2 0:010002                                  | 20 2 2 1 1 | k0:8
s0.5 0:010002                                | 20 2 2 1 1 | k0:8
s4.1 0:010002                                | 20 2 2 1 1 | k0:8
# Inodes outside their grammar that nothing names.
i10 9:01                                     | 20 2 2 1 1 | k0:8
i70 9:01                                     | 20 2 2 1 1 | k1:8
# A block that was a directory's, with an entry, and with a sector outside its grammar.
s4.3 8:020000000101'q                        | 20 2 2 1 1 | k0:8
s4.7 8:01                                    | 20 2 2 1 1 | k0:8
# Bytes of a file may be any.
s2 0:ffffffffffffffffff                      | 20 2 2 1 1 |
# The mark of a large block that a file has, and of one that nobody has.
k1 272:00                                    | 20 2 2 1 1 | k1:9
k0 272:01                                    | 20 2 2 1 1 | k0:9
";

const DIRECTORIES: &str = "
# A sector without entries outside its grammar, and one with an entry: that entry isn't there.
s0.1 8:01                                    | 20 2 2 1 1 | s0.1:2
s1 152:05                                    | 20 2 2 1 1 | i1:4 i2:4 s1:2
# Of a sector outside its grammar no version is judged.
s0.1 0:010002 8:01                           | 20 2 2 1 1 | s0.1:2
# A name twice in a sector, and twice in a directory: it is the later one's fault.
s0 296:020000000101'f; i0 16:05; i2 10:03    | 20 2 2 1 1 | s0:2
s0 296:020000000101'f                        | 20 2 2 1 1 | i0:4 i2:4 s0:2
s0.2 8:030000000103'l; i0 16:05; i3 10:02    | 20 2 2 1 1 | s0.2:2
# An entry names an inode past the last, a free one, and one of another kind.
s0 296:800000000101'x; i0 16:05              | 20 2 2 1 1 | s0:3
s0 296:070000000101'x; i0 16:05              | 20 2 2 1 1 | s0:3
s0 296:020000000102'x; i0 16:05              | 20 2 2 1 1 | s0:3
# An inode outside its grammar counts as free.
i3 9:01                                      | 20 2 2 1 0 | k0:7 k0:8 s0:3
# Two such entries of a sector, and a name that stands before with another.
s0 296:070000000101'x 368:080000000101'y; i0 16:06 | 20 2 2 1 1 | s0:3
s0 296:090000000101'f; i0 16:05              | 20 2 2 1 1 | s0:2 s0:3
";

#[test]
fn segments_are_told_as_they_are(rt: HostRuntime) -> Result<(), Fail> {
    let other = first_other(&rt, rt.alloc(), SEGMENTS)?;
    assert!(rt; other.is_empty(), "{other}");
    Ok(())
}

#[test]
fn sectors_of_directories_are_told_as_they_are(rt: HostRuntime) -> Result<(), Fail> {
    let other = first_other(&rt, rt.alloc(), DIRECTORIES)?;
    assert!(rt; other.is_empty(), "{other}");
    Ok(())
}
