// A disk from before files had times, written out by hand: it is read as a tree whose files were never written, and plans are made over it as
// over any disk. What a plan changes and writes, made on the disk, leads to one whose file has its time.
ghost use Rattle.op_data.specs.Bytes.{IsOfBytes};

use crate::bytes_asked::{Setup, Telling, WHEN, expect};
use crate::looks::told_over;
use dir_lookup::{Hand, Looked};
use disk_reading::{Disk, tree_read};
use edit_writing::{byte_writes, changes_of, have_next_versions};
use frang_base::{Block, Change, Changes, NoMemory, Op, Sector};
use meta_version::{Sectors, apply, is_change};
use op_data::plan_bytes;
use plan_disks::{CachedDisk, Segment, bytes_op, held_of, path_of, sectors_of};
use plan_steps::Edit;
use reply_text::write_line;
use std::alloc::Global;
use std::test::Fail;
use test_tables::lay_on;
use usable_sectors::Usable;

// The segment: inodes 0 to 3; block 0 is a directory's, block 1 has bytes.
const SEGMENT: Segment = Segment {
    number: 0,
    version: 3,
    inodes: 15,
    others: 0,
    states: "0:07",
    large: false,
};

static SEGMENTS: [(&str, Segment); 1] = [("segment", SEGMENT)];

// The parameters of format 1, with one segment and run 2; the root in block 0, with the file /f, whose bytes are `hello` in block 1, the directory
// /d and the link /l to `f`.
const LAID: &str = "
0 0:'FRANGPAR 8:010000000100000002
k0 0:03 8:0f 16:07
i0 0:04 8:020001000100000003
i1 0:02 8:010001000100000005 24:020000000100000001
i2 0:01 8:020001 24:0300000001
i3 0:01 8:030001000000000001 24:0400000001 128:'f
s0.1; s0.2; s0.3; s0.4; s0.5; s0.6; s0.7
s0 0:04 8:010000000101'f 80:020000000102'd 152:030000000103'l
s1 0:'hello
";

fn disk(alloc: Global) -> Result<Disk, NoMemory> {
    let mut disk = Disk::new(alloc);
    lay_on(&mut disk, LAID)?;
    Ok(disk)
}

// The lines of the tree that the disk stands for; none where it stands for none.
fn lines_of(alloc: Global, disk: &Disk) -> Result<Vec<u8>, NoMemory> {
    let mut text = Vec::new(alloc);
    if let Some(tree) = tree_read(alloc, disk)? {
        for line in &tree.lines()? {
            write_line(alloc, line, &mut text)?;
        }
    }
    Ok(text)
}

// When /f was last written or cut, by the tree that the disk stands for.
fn when_of(alloc: Global, disk: &Disk) -> Result<Option<u64>, NoMemory> {
    let Some(tree) = tree_read(alloc, disk)? else {
        return Ok(None);
    };
    let path = path_of(alloc, "/f")?;
    match tree.file_at(path.as_slice()) {
        Some(file) => Ok(Some(file.when)),
        None => Ok(None),
    }
}

#[test]
fn a_disk_of_the_first_format_is_read(rt: HostRuntime) -> Result<(), Fail> {
    let disk = disk(rt.alloc())?;
    let lines = lines_of(rt.alloc(), &disk)?;
    assert!(rt;
        lines.as_slice() == "= / dir 3\n= /d dir 0\n= /f file 5 1\n= /l link 1\n".as_bytes()
    );
    assert!(rt; when_of(rt.alloc(), &disk)? == Some(0));
    Ok(())
}

const PLANNED: &str = "
read /f 0 9       | segment all      | data 68656c6c6f
write /f 0 J      | segment all      | ok, 10737418241 v3 100:5802000003000000, 12884901896=4a656c6c6f(00*507)
fill /f 5 4096 00 | segment all      | ok, 4294967296 v4 16:17, 10737418241 v3 12:02 17:10 36:02 100:5802000003000000, \
    12884901896=68656c6c6f(00*507), 12884901897=(00*512), 12884901898=(00*512), 12884901899=(00*512), 12884901900=(00*512), 12884901901=(00*512), \
    12884901902=(00*512), 12884901903=(00*512), 12884901904=(00*512)
write /f 5 !      | segment all      | ok, 10737418241 v3 16:06 100:5802000003000000, 12884901896=68656c6c6f21(00*506)
truncate /f 0     | segment all @0.0 | ok, 4294967296 v4 16:03, 10737418241 v3 12:00 16:00 32:00 100:(00*8), freed 12884901896..12884901903
";

// What is told of plans over it.
fn setup() -> Setup {
    Setup {
        disk: LAID,
        segments: &SEGMENTS,
        telling: Telling::Written,
    }
}

// What is told of a look over it.
fn look_told(alloc: Global, line: &str) -> Result<String, NoMemory> {
    let sectors = sectors_of(alloc, LAID)?;
    told_over(alloc, line, &sectors)
}

#[test]
fn plans_over_a_disk_of_the_first_format(rt: HostRuntime) -> Result<(), Fail> {
    expect(&rt, rt.alloc(), &setup(), PLANNED)?;
    assert!(rt; look_told(rt.alloc(), "time /f")?.as_str() == "time 0.0");
    Ok(())
}

// The parameters of format 2 in run 3.
const NEW_PARAMETERS: &str = "0 0:'FRANGPAR 8:020000000100000003";

// Makes the changes on the disk.
fn make(disk: &mut Disk, changes: &[Change]) -> Result<(), NoMemory> {
    for change in changes {
        let mut block = disk.get(change.sector);
        if is_change(change) {
            apply(&mut block, change);
        }
        disk.set(change.sector, block)?;
    }
    Ok(())
}

// Writes the bytes on the disk.
fn write(disk: &mut Disk, bytes: &[(Sector, Block)]) -> Result<(), NoMemory> {
    for (sector, block) in bytes {
        disk.set(*sector, *block)?;
    }
    Ok(())
}

// The changes by which the edits are made over what is at hand; none where a version has no next one.
fn changes(alloc: Global, sectors: &Usable, edits: &[Edit]) -> Result<Changes, NoMemory> {
    let held = &held_of(alloc, &SEGMENTS, "segment")?;
    let hand = Hand {
        sectors,
        held,
        all: true,
    };
    if have_next_versions(&hand, edits) {
        changes_of(alloc, &hand, edits)
    } else {
        Ok(Changes::from_vec(Vec::new(alloc)))
    }
}

// Makes on the disk what the edits change and write.
fn make_edits(
    alloc: Global,
    disk: &mut Disk,
    sectors: &Usable,
    edits: &[Edit],
) -> Result<(), NoMemory> {
    make(disk, changes(alloc, sectors, edits)?.as_slice())?;
    write(disk, byte_writes(alloc, edits)?.as_slice())
}

// The disk in run 3 and of format 2, once `!` is written at the end of /f by the plan over the old disk.
fn written_disk(alloc: Global) -> Result<Disk, NoMemory> {
    let mut disk = disk(alloc)?;
    lay_on(&mut disk, NEW_PARAMETERS)?;
    write_over(alloc, &mut disk)?;
    Ok(disk)
}

fn write_over(alloc: Global, disk: &mut Disk) -> Result<(), NoMemory> {
    let sectors = sectors_of(alloc, LAID)?;
    write_by(alloc, disk, &sectors)
}

fn write_by(alloc: Global, disk: &mut Disk, sectors: &Sectors) -> Result<(), NoMemory> {
    let held = held_of(alloc, &SEGMENTS, "segment")?;
    let cached = CachedDisk::of(alloc, sectors)?;
    let usable = cached.usable();
    let hand = Hand {
        sectors: &usable,
        held: &held,
        all: true,
    };
    write_at_hand(alloc, disk, &hand)
}

fn write_at_hand(alloc: Global, disk: &mut Disk, hand: &Hand) -> Result<(), NoMemory> {
    let op = bytes_op(alloc, "write /f 5 !")?;
    write_planned(alloc, disk, hand, &op)
}

// Makes on the disk what the plan of an operation changes and writes.
fn write_planned(alloc: Global, disk: &mut Disk, hand: &Hand, op: &Op) -> Result<(), NoMemory>
    requires { IsOfBytes op.now }
{
    let mut looked = Looked::unasked();
    match plan_bytes(alloc, op, WHEN, hand, &mut looked) {
        Ok(outcome) => make_edits(alloc, disk, hand.sectors, &outcome.edits),
        Err(_) => Ok(()),
    }
}

#[test]
fn what_is_written_over_it_has_a_time(rt: HostRuntime) -> Result<(), Fail> {
    let disk = written_disk(rt.alloc())?;
    let lines = lines_of(rt.alloc(), &disk)?;
    assert!(rt;
        lines.as_slice() == "= / dir 3\n= /d dir 0\n= /f file 6 1\n= /l link 1\n".as_bytes()
    );
    assert!(rt; when_of(rt.alloc(), &disk)? == Some(WHEN));
    Ok(())
}
