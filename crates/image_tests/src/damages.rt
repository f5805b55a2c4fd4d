// The fresh image, and what one change makes of it: how a command ends, having said nothing, and in which words.
use crate::builders::{DONE, Row, files_of, first_other, image_of, tell_over};
use frang_base::NoMemory;
use frang_outside::MemFiles;
use frang_top::Status;
use std::alloc::Global;
use std::sync::Wait;
use std::test::Fail;
use std::thread::Threads;

// The bytes of the fresh image of 16 segments that aren't zero: mark and count, the parameters, the segment, the root.
const FRESH: &str =
    "0:'FRANGIM1 8:03 24:'FRANGPAR 32:020000001000000001 540:01 544:01 552:01 1059:8002 1064:01 1072:020001";

// Its length.
const FRESH_LEN: usize = 1576;

// What is laid over the fresh image, and how many bytes of it are there; the place and the kind of the fault, and its words.
type Damage = (&'static str, usize, u64, u32, &'static str);

static DAMAGES: [Damage; 14] = [
    (
        "",
        0,
        0,
        1,
        "image: the bytes end inside the header or an entry, at byte 0",
    ),
    (
        "",
        1575,
        1056,
        1,
        "image: the bytes end inside the header or an entry, at byte 1056",
    ),
    (
        "0:00",
        FRESH_LEN,
        0,
        2,
        "image: the first 8 bytes aren't those of an image, at byte 0",
    ),
    (
        "8:04",
        FRESH_LEN,
        1576,
        1,
        "image: the bytes end inside the header or an entry, at byte 1576",
    ),
    (
        "8:02",
        FRESH_LEN,
        1056,
        6,
        "image: there are bytes after the last entry, at byte 1056",
    ),
    // The segment and the root in each other's place.
    (
        "536:0000008002 552:020001 1056:0000000001 1072:010000",
        FRESH_LEN,
        1056,
        3,
        "image: sector 4294967296 isn't greater than the one before, at byte 1056",
    ),
    // A segment more than there are.
    (
        "536:10",
        FRESH_LEN,
        536,
        4,
        "image: sector 4294967312 lies in no region, at byte 536",
    ),
    (
        "544:00 552:00",
        FRESH_LEN,
        536,
        5,
        "image: sector 4294967296 is zeros, at byte 536",
    ),
    (
        "16:01",
        FRESH_LEN,
        16,
        7,
        "image: the first sector isn't that of the parameters, or has none that a run may follow, at byte 16",
    ),
    (
        "24:0000000000000000000000000000000000",
        FRESH_LEN,
        16,
        5,
        "image: sector 0 is zeros, at byte 16",
    ),
    // Zeros too, but of another sector.
    (
        "16:01 24:0000000000000000000000000000000000",
        FRESH_LEN,
        16,
        7,
        "image: the first sector isn't that of the parameters, or has none that a run may follow, at byte 16",
    ),
    // The last run number, which no further run can raise.
    (
        "40:ffffffff",
        FRESH_LEN,
        16,
        7,
        "image: the first sector isn't that of the parameters, or has none that a run may follow, at byte 16",
    ),
    // A byte behind the bits of the segment.
    (
        "817:01",
        FRESH_LEN,
        536,
        7,
        "image: the bitmap of sector 4294967296 isn't one, at byte 536",
    ),
    (
        "1072:04",
        FRESH_LEN,
        1056,
        7,
        "image: the inode of sector 10737418240 isn't one, at byte 1056",
    ),
];

// The bit of an inode that isn't in use.
const UNREACHED: &str = "552:03";

// The disk with it stands for no tree.
static NO_TREE: [Damage; 1] = [(
    "552:03",
    FRESH_LEN,
    0,
    8,
    "image: its replayed disk stands for no tree",
)];

// The file `img`, which holds so many bytes of the fresh image with these laid over it.
fn fresh_files(alloc: Global, len: usize, later: &str) -> Result<MemFiles, NoMemory> {
    let mut image = image_of(alloc, FRESH_LEN, FRESH, later)?;
    image.resize(len, 0)?;
    files_of(alloc, &image)
}

// A command refuses a damage as what it is.
fn is_refused(
    rt: &(impl Threads + Wait + Sync),
    alloc: Global,
    words: &str,
    damage: &Damage,
) -> Result<bool, NoMemory> {
    let mut files = fresh_files(alloc, damage.1, damage.0)?;
    let told = tell_over(rt, alloc, words, &mut files)?;
    Ok(told.text.is_empty() && is_status(alloc, &told.status, damage)?)
}

// The status is that of the damage, and its sentence has the words.
fn is_status(alloc: Global, status: &Status, damage: &Damage) -> Result<bool, NoMemory> {
    let (_, _, at, kind, words) = *damage;
    let sentence = status.sentence(alloc)?;
    Ok(status.code == 6 && status.line == kind && status.at == at && sentence.as_str() == words)
}

// The first of these damages, from 1 on, that a command refuses otherwise; 0 where there is none.
fn first_not_refused(
    rt: &(impl Threads + Wait + Sync),
    alloc: Global,
    words: &str,
    damages: &[Damage],
) -> Result<usize, NoMemory> {
    for (i, damage) in damages.iter().enumerate() {
        if !is_refused(rt, alloc, words, damage)? {
            return Ok(i.saturating_add(1));
        }
    }
    Ok(0)
}

// How many of these commands refuse these damages as what they are.
fn refusing(
    rt: &(impl Threads + Wait + Sync),
    alloc: Global,
    commands: &[&str],
    damages: &[Damage],
) -> Result<usize, NoMemory> {
    let mut count: usize = 0;
    for words in commands {
        if first_not_refused(rt, alloc, words, damages)? == 0 {
            count = count.saturating_add(1);
        }
    }
    Ok(count)
}

static COMMANDS: [&str; 4] = [
    "tree img",
    "recover img --save new",
    "log img 0",
    "fsck img",
];

#[test]
fn damaged_images_are_refused_where_they_are_damaged(rt: HostRuntime) -> Result<(), Fail> {
    assert!(rt; refusing(&rt, rt.alloc(), &COMMANDS, &DAMAGES)? == 4);
    Ok(())
}

// Those that need a tree.
static OF_TREES: [&str; 2] = ["tree img", "recover img --save new"];

#[test]
fn an_image_without_a_tree_is_refused(rt: HostRuntime) -> Result<(), Fail> {
    assert!(rt; refusing(&rt, rt.alloc(), &OF_TREES, &NO_TREE)? == 2);
    Ok(())
}

// The report of the check of the disk with it.
const REPORT: &str =
    "{\"blocks\":0,\"dirs\":1,\"faults\":[[4294967296,7]],\"files\":0,\"larges\":0,\"links\":0,\"segments\":16,\"stands\":false}\n";

static TREELESS: [Row; 2] = [("log img 0", DONE, "! end\n"), ("fsck img", DONE, REPORT)];

// The first of these rows, from 1 on, that is told otherwise of the fresh image with these laid over it; 0 where there is none.
fn first_other_of(
    rt: &(impl Threads + Wait + Sync),
    alloc: Global,
    later: &str,
    rows: &[Row],
) -> Result<usize, NoMemory> {
    let mut files = fresh_files(alloc, FRESH_LEN, later)?;
    first_other(rt, alloc, &mut files, rows)
}

#[test]
fn a_log_is_read_and_a_check_told_also_where_no_tree_stands(rt: HostRuntime) -> Result<(), Fail> {
    assert!(rt; first_other_of(&rt, rt.alloc(), UNREACHED, &TREELESS)? == 0);
    Ok(())
}

static WHOLE: [Row; 1] = [("recover img", DONE, "= / dir 0\n! end\n")];

#[test]
fn the_fresh_image_has_an_empty_root(rt: HostRuntime) -> Result<(), Fail> {
    assert!(rt; first_other_of(&rt, rt.alloc(), "", &WHOLE)? == 0);
    Ok(())
}
