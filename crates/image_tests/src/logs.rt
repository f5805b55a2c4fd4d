// An image whose two logs hold a record each: a file that server 0 made, and one that server 1 made. Nothing of them stands in place.
use crate::builders::{
    DONE, Ending, FixedFiles, Row, Told, call, files_of, first_other, image_of, is_so, tell_over,
    told_by, words_of,
};
use frang_base::NoMemory;
use frang_outside::{FaultyOutside, Files, MemFiles};
use frang_top::Status;
use std::alloc::Global;
use std::sync::Wait;
use std::test::Fail;
use std::thread::Threads;
use test_tables::lay;

// Five sectors: the parameters, a sector of each log, the segment, the root.
const LEN: usize = 2616;

// What stands around the records, on a disk of format 1 with 16 segments.
const FRAME: &str =
    "0:'FRANGIM1 8:05 24:'FRANGPAR 32:010000001000000001 1580:01 1584:01 1592:01 2099:8002 2104:01 2112:020001";

// The record of a file `a` in the root by operation 1.2: the segment with its inode and the root's first block, the root, the inode, the entry.
const FIRST_RECORD: &str = "
536:0000008000000000
544:00010000000000000200000001000000000001007900
568:0400
570:000000000100000002000000000000000200
588:08000100031000010003
598:000000800200000002000000000000000200
616:0c000100011000010001
626:010000800200000001000000000000000200
644:08000300010001
651:180005000200000001
660:000000000300000001000000000000000100
678:08000700010000000101'a
";

// That of a file `b` by operation 1.5, in the log of server 1.
const SECOND_RECORD: &str = "
1056:0000808000000000
1064:00010000000000000500000001000000000001006f00
1088:0400
1090:000000000100000003000000000000000100
1108:0800010007
1113:000000800200000003000000000000000100
1131:1000010002
1136:020000800200000001000000000000000200
1154:08000300010001
1161:180005000500000001
1170:000000000300000002000000000000000100
1188:50000700020000000101'b
";

// The image, these laid over it.
fn logs_image(alloc: Global, later: &str) -> Result<Vec<u8>, NoMemory> {
    let mut image = image_of(alloc, LEN, FRAME, FIRST_RECORD)?;
    lay(&mut image, SECOND_RECORD)?;
    lay(&mut image, later)?;
    Ok(image)
}

pub fn logs_files(alloc: Global, later: &str) -> Result<MemFiles, NoMemory> {
    files_of(alloc, &logs_image(alloc, later)?)
}

pub const RECOVERED: &str =
    "! recovered 0 keeps 1.2\n! recovered 1 keeps 1.5\n= / dir 2\n= /a file 0 1\n= /b file 0 1\n! end\n";

const TREE: &str = "= / dir 2\n= /a file 0 1\n= /b file 0 1\n! end\n";

const BAD_WORDS: Ending = (2, 0, 0);

const UNREAD: Ending = (4, 1, 0);

// The report of its check.
pub const REPORT: &str =
    "{\"blocks\":1,\"dirs\":1,\"faults\":[],\"files\":2,\"larges\":0,\"links\":0,\"segments\":16,\"stands\":true}\n";

static ROWS: [Row; 36] = [
    ("recover img", DONE, RECOVERED),
    ("recover img --save new", DONE, RECOVERED),
    ("recover --save new img", DONE, RECOVERED),
    ("recover --save=new -- img", DONE, RECOVERED),
    ("tree img", DONE, TREE),
    ("tree -- img", DONE, TREE),
    ("log img 0", DONE, "# 1.2\n! end\n"),
    ("log img 1", DONE, "# 1.5\n! end\n"),
    ("log img 255", DONE, "! end\n"),
    ("log img 256", BAD_WORDS, ""),
    ("log img 01", BAD_WORDS, ""),
    ("log img -1", BAD_WORDS, ""),
    ("log img +1", BAD_WORDS, ""),
    ("log img", BAD_WORDS, ""),
    ("log img 0 0", BAD_WORDS, ""),
    ("tree", BAD_WORDS, ""),
    ("tree img img", BAD_WORDS, ""),
    ("tree img --save new", BAD_WORDS, ""),
    ("tree --image=img", BAD_WORDS, ""),
    ("tree -img", BAD_WORDS, ""),
    ("tree --help", BAD_WORDS, ""),
    ("-- tree img", BAD_WORDS, ""),
    ("walk img", BAD_WORDS, ""),
    ("recover img --save", BAD_WORDS, ""),
    ("recover img --save --new", BAD_WORDS, ""),
    ("recover img --save new --save=new", BAD_WORDS, ""),
    ("recover img --segments 16", BAD_WORDS, ""),
    ("fsck img", DONE, REPORT),
    ("fsck -- img", DONE, REPORT),
    ("fsck", BAD_WORDS, ""),
    ("fsck img img", BAD_WORDS, ""),
    ("fsck img --save new", BAD_WORDS, ""),
    ("fsck img --segments 16", BAD_WORDS, ""),
    ("fsck none", UNREAD, ""),
    ("tree none", UNREAD, ""),
    ("log -- -img 0", UNREAD, ""),
];

#[test]
fn logs_are_replayed_and_told_where_the_words_are_a_command(rt: HostRuntime) -> Result<(), Fail> {
    let mut files = logs_files(rt.alloc(), "")?;
    assert!(rt; first_other(&rt, rt.alloc(), &mut files, &ROWS)? == 0);
    Ok(())
}

// How many bytes a file has; 0 where it isn't there.
fn length_of(alloc: Global, files: &mut MemFiles, name: &str) -> usize {
    match files.read(alloc, name, 1_000_000) {
        Ok(bytes) => bytes.len(),
        Err(_) => 0,
    }
}

static SAVED: [Row; 3] = [
    ("recover img --save=-new", DONE, RECOVERED),
    ("recover -- -new", DONE, TREE),
    ("log -- -new 0", DONE, "! end\n"),
];

// The length of what is saved, where the rows are told so.
fn saved_length(rt: &(impl Threads + Wait + Sync), alloc: Global) -> Result<usize, NoMemory> {
    let mut files = logs_files(alloc, "")?;
    if first_other(rt, alloc, &mut files, &SAVED)? != 0 {
        return Ok(0);
    }
    Ok(length_of(alloc, &mut files, "-new"))
}

#[test]
fn a_saved_recovery_has_no_logs_left(rt: HostRuntime) -> Result<(), Fail> {
    // The inodes and the block of the two files are three sectors more, and the logs two less.
    assert!(rt; saved_length(&rt, rt.alloc())? == 3136);
    Ok(())
}

// The bytes 22 to 24 of a log's sector, which have to be zero.
const ODD_SLOT: &str = "566:01";

const ODD: Status = Status {
    code: 6,
    line: 7,
    at: 536,
    sector: 2_147_483_648,
};

// A log isn't told over the damage.
fn is_odd(rt: &(impl Threads + Wait + Sync), alloc: Global) -> Result<bool, NoMemory> {
    let mut files = logs_files(alloc, ODD_SLOT)?;
    let told = tell_over(rt, alloc, "log img 1", &mut files)?;
    Ok(told.status == ODD && told.text.is_empty())
}

#[test]
fn a_damaged_log_is_told_by_its_sector(rt: HostRuntime) -> Result<(), Fail> {
    assert!(rt; is_odd(&rt, rt.alloc())?);
    let words = ODD.sentence(rt.alloc())?;
    assert!(rt;
        words.as_str() == "image: the log slot of sector 2147483648 isn't one, at byte 536"
    );
    Ok(())
}

// What is told with these words over these files where the outside fails at the third line.
fn tell_failing(
    rt: &(impl Threads + Wait + Sync),
    alloc: Global,
    words: &[String],
    files: &mut MemFiles,
) -> Result<Told, NoMemory> {
    let third = vec![in alloc; 3]?;
    let out = FaultyOutside::new(alloc, Vec::new(alloc), Vec::new(alloc), third);
    let (status, out) = call(rt, alloc, words, files, out);
    told_by(alloc, status, out.acts())
}

// So of the tree.
fn told_in_part(rt: &(impl Threads + Wait + Sync), alloc: Global) -> Result<Told, NoMemory> {
    let mut files = logs_files(alloc, "")?;
    let words = words_of(alloc, "tree img")?;
    tell_failing(rt, alloc, &words, &mut files)
}

#[test]
fn a_failing_outside_ends_a_command(rt: HostRuntime) -> Result<(), Fail> {
    let told = told_in_part(&rt, rt.alloc())?;
    assert!(rt; is_so(&told, (5, 0, 2), "= / dir 2\n= /a file 0 1\n"));
    Ok(())
}

// A recovery that is to be saved.
static UNSAVED: [Row; 1] = [("recover img --save new", (7, 0, 0), RECOVERED)];

// Over these files the rows are told so, with so many writes that fail.
fn ends(
    rt: &(impl Threads + Wait + Sync),
    alloc: Global,
    files: &mut FixedFiles,
    rows: &[Row],
    faults: u64,
) -> Result<bool, NoMemory> {
    let other = first_other(rt, alloc, files, rows)?;
    Ok(other == 0 && files.write_faults == faults)
}

#[test]
fn a_file_that_cannot_be_written_ends_a_command(rt: HostRuntime) -> Result<(), Fail> {
    let image = Some(logs_image(rt.alloc(), "")?);
    let mut files = FixedFiles {
        image,
        write_faults: 0,
    };
    assert!(rt; ends(&rt, rt.alloc(), &mut files, &UNSAVED, 1)?);
    Ok(())
}

static TOO_LONG: [Row; 1] = [("recover img --save new", (8, 1, 536_870_912), "")];

#[test]
fn a_file_that_is_too_long_ends_a_command(rt: HostRuntime) -> Result<(), Fail> {
    let mut files = FixedFiles {
        image: None,
        write_faults: 0,
    };
    assert!(rt; ends(&rt, rt.alloc(), &mut files, &TOO_LONG, 0)?);
    Ok(())
}
