// Disks with bytes worked out by hand: which tree they stand for, and that a disk that breaks one condition stands for none.
use crate::builders::fresh_disk;
use disk_reading::{Disk, tree_read};
use frang_base::{NoMemory, Said};
use std::alloc::Global;
use std::test::Fail;
use test_tables::{has_rows, is_row, lay_on, parted};

// What is said of a node: its path, kind, size and links.
type Line = (&'static str, u8, u32, u32);

// What the names `a` and `b` of one file, a directory `d` and a link `l` in the root add. The root's entries stand in block 0, the
// file's three bytes in block 1.
const FOUR_NAMES: &str = "
k0 8:0f 16:07
i0 12:01 16:04
i1 0:01 8:0100020001 16:03 32:01
i2 0:01 8:020001
i3 0:01 8:030001 16:02 128:'/a
s0 0:01 8:010000000101'b 80:030000000103'l 224:010000000101'a
s0.7 440:020000000102'd
s1 0:'xyz
";

// What is said of that tree.
static FOUR_LINES: [Line; 5] = [
    ("/", 2, 4, 0),
    ("/a", 1, 3, 2),
    ("/b", 1, 3, 2),
    ("/d", 2, 0, 0),
    ("/l", 3, 2, 0),
];

// What is said of the tree of the root alone.
static ROOT_ALONE: [Line; 1] = [("/", 2, 0, 0)];

fn with_four_names(alloc: Global) -> Result<Disk, NoMemory> {
    let mut disk = fresh_disk(alloc)?;
    lay_on(&mut disk, FOUR_NAMES)?;
    Ok(disk)
}

fn says(line: &Said, wanted: Line) -> bool {
    let (wanted_path, wanted_kind, wanted_size, wanted_links) = wanted;
    match line {
        Said::Node {
            path,
            kind,
            size,
            links,
        } => {
            path.as_slice() == wanted_path.as_bytes()
                && *kind == wanted_kind
                && *size == wanted_size
                && *links == wanted_links
        }
        _ => false,
    }
}

// Whether the disk stands for a tree that is said in these lines.
fn stands_for(alloc: Global, disk: &Disk, wanted: &[Line]) -> Result<bool, NoMemory> {
    let Some(tree) = tree_read(alloc, disk)? else {
        return Ok(false);
    };
    let lines = tree.lines()?;
    let mut all = lines.len() == wanted.len();
    for (line, wanted) in lines.iter().zip(wanted) {
        all = all && says(line, *wanted);
    }
    Ok(all)
}

fn stands_for_none(alloc: Global, disk: &Disk) -> Result<bool, NoMemory> {
    Ok(tree_read(alloc, disk)?.is_none())
}

#[test]
fn a_fresh_disk_has_the_root_alone(rt: HostRuntime) -> Result<(), Fail> {
    let disk = fresh_disk(rt.alloc())?;
    assert!(rt; disk.len() == 3);
    assert!(rt; stands_for(rt.alloc(), &disk, &ROOT_ALONE)?);
    Ok(())
}

#[test]
fn names_are_read_in_order(rt: HostRuntime) -> Result<(), Fail> {
    let disk = with_four_names(rt.alloc())?;
    assert!(rt; stands_for(rt.alloc(), &disk, &FOUR_LINES)?);
    Ok(())
}

#[test]
fn a_disk_without_times_is_read(rt: HostRuntime) -> Result<(), Fail> {
    let mut disk = fresh_disk(rt.alloc())?;
    lay_on(&mut disk, "0 8:01")?;
    assert!(rt; stands_for(rt.alloc(), &disk, &ROOT_ALONE)?);
    Ok(())
}

#[test]
fn a_file_with_a_time_is_read(rt: HostRuntime) -> Result<(), Fail> {
    let mut disk = with_four_names(rt.alloc())?;
    lay_on(&mut disk, "i1 100:0900000001")?;
    assert!(rt; stands_for(rt.alloc(), &disk, &FOUR_LINES)?);
    Ok(())
}

#[test]
fn a_block_that_was_a_directory_is_clear(rt: HostRuntime) -> Result<(), Fail> {
    let mut disk = fresh_disk(rt.alloc())?;
    lay_on(&mut disk, "k0 17:08")?;
    assert!(rt; stands_for(rt.alloc(), &disk, &ROOT_ALONE)?);
    lay_on(&mut disk, "s5 0:01")?;
    assert!(rt; stands_for(rt.alloc(), &disk, &ROOT_ALONE)?);
    lay_on(&mut disk, "s5 8:010000000101'b")?;
    assert!(rt; stands_for_none(rt.alloc(), &disk)?);
    Ok(())
}

// A condition that is broken, and the bytes that break it on the disk with four names.
const BROKEN: &str = "
no parameters                       | 0 0:'f
a format before the first           | 0 8:00
a format past the newest            | 0 8:03
no segments                         | 0 12:00
an inode not in its grammar         | i1 9:01
a directory with a time             | i2 100:01
a link with a time                  | i3 107:01
an entry not in its grammar         | s0 78:01
a version that the run has not      | i0 2:02
the bit of a free inode             | k0 8:1f
no bit of an inode in use           | k0 8:07
a directory's block marked a file's | k0 16:05
a file's block marked a directory's | k0 16:0f
a block in use that nobody has      | k0 16:17
a large block that nobody has       | k0 272:01
a block that two have               | i1 32:00
more entries told than there are    | i0 16:05
an entry of another kind            | s0 13:03
an entry of a free inode            | s0 8:09
a name twice                        | s0 14:'a
more links than names               | i1 10:03
a directory with two names          | s0 296:020000000102'e
";

// A change of the disk with four names leaves one that stands for no tree.
fn is_broken_by(alloc: Global, change: &str) -> Result<bool, NoMemory> {
    let mut disk = with_four_names(alloc)?;
    lay_on(&mut disk, change)?;
    stands_for_none(alloc, &disk)
}

#[test]
fn a_disk_that_breaks_a_condition_stands_for_none(rt: HostRuntime) -> Result<(), Fail> {
    assert!(rt; has_rows(BROKEN));
    for row in BROKEN.lines() {
        if is_row(row) {
            let (_, change) = parted(row);
            assert!(rt; is_broken_by(rt.alloc(), change)?, "{row}");
        }
    }
    Ok(())
}
