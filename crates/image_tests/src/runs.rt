// Runs on images, and saves behind runs: an image goes from run to run, and each file that is saved is one again.
use crate::builders::{DONE, Ending, FixedFiles, Row, call, first_other, is_so, told_by, words_of};
use crate::logs::{RECOVERED, REPORT, logs_files};
use frang_base::NoMemory;
use frang_outside::{FaultyOutside, Files, MemFiles};
use std::alloc::Global;
use std::sync::Wait;
use std::test::Fail;
use std::thread::Threads;

// Scripts by their names.
static SCRIPTS: [(&str, &str); 6] = [
    (
        "two",
        "0 mount\n0 create /a\nbarrier\n1 mount\n1 create /b\nbarrier\n0 stat /b\n0 create /c\nhalt\n",
    ),
    ("list", "0 mount\n0 list /\n"),
    ("halted", "halt\n"),
    (
        "timed",
        "0 mount\n0 time /a\ntick 3\n0 write /a 0 x\n0 time /a\n",
    ),
    ("bad", "0 mount\n0 truncate /a x1\n"),
    ("more", "2 mount\n2 create /c\n2 unmount\n"),
];

// These, and the image `img` of format 1, whose two logs hold a record each, a sector a record.
fn given(alloc: Global) -> Result<MemFiles, NoMemory> {
    let mut files = logs_files(alloc, "")?;
    for (name, script) in &SCRIPTS {
        files.put_file(name, script.as_bytes())?;
    }
    Ok(files)
}

const TWO: &str =
    "1 0 mounted\n2 0 ok\n3 - ok\n4 1 mounted\n5 1 ok\n6 - ok\n7 0 file 0 1\n8 0 ok\n9 - ok\n";

const LISTED: &str = "1 0 mounted\n2 0 names a b\n= / dir 2\n= /a file 0 1\n= /b file 0 1\n! end\n";

const TIMED: &str =
    "1 0 mounted\n2 0 time 0.0\n3 - ok\n4 0 ok\n5 0 time 2.3\n= / dir 2\n= /a file 1 1\n= /b file 0 1\n! end\n";

const MORE: &str =
    "1 2 mounted\n2 2 ok\n3 2 ok\n= / dir 3\n= /a file 0 1\n= /b file 0 1\n= /c file 0 1\n! end\n";

const EMPTY_LOG: &str = "! end\n";

const BAD_WORDS: Ending = (2, 0, 0);

// One call after another over the same files.
static ROWS: [Row; 32] = [
    // what a stop left is recovered, and run on twice
    ("run two --save first", DONE, TWO),
    ("recover first", DONE, RECOVERED),
    ("log first 0", DONE, "# 1.2\n! end\n"),
    ("log first 1", DONE, "# 1.5\n! end\n"),
    ("fsck first", DONE, REPORT),
    ("run list --image first --save second", DONE, LISTED),
    (
        "run list --image=second --save=third --order 3",
        DONE,
        LISTED,
    ),
    ("log third 0", DONE, EMPTY_LOG),
    ("run more --image third --save third", DONE, MORE),
    ("run more --image first --order 7", DONE, MORE),
    // a fresh disk
    ("run halted --save fresh --order 0", DONE, "1 - ok\n"),
    ("run halted --save small --segments 1", DONE, "1 - ok\n"),
    (
        "run list --image fresh",
        DONE,
        "1 0 mounted\n2 0 names\n= / dir 0\n! end\n",
    ),
    // an image of the older formats of disks and of logs
    ("run list --image img --save newer", DONE, LISTED),
    ("log newer 0", DONE, EMPTY_LOG),
    ("log newer 1", DONE, EMPTY_LOG),
    ("fsck newer", DONE, REPORT),
    ("run timed --image img", DONE, TIMED),
    // the script is read first, then the image
    ("run none --image none", (4, 0, 0), ""),
    ("run bad --image none", (1, 2, 5), ""),
    ("run list --image none", (4, 1, 0), ""),
    ("run list --image halted", (6, 1, 0), ""),
    // words
    ("run list --image img --segments 16", BAD_WORDS, ""),
    ("run list --image img --image img", BAD_WORDS, ""),
    ("run list --save", BAD_WORDS, ""),
    ("run list --save a --save b", BAD_WORDS, ""),
    ("run --save third list --image -- first", BAD_WORDS, ""),
    ("recover img --image img", BAD_WORDS, ""),
    ("soak", BAD_WORDS, ""),
    ("soak 07", BAD_WORDS, ""),
    ("soak 7 --save new", BAD_WORDS, ""),
    ("soak 18446744073709551616", BAD_WORDS, ""),
];

// The bytes of a file that is read whole; none where it isn't there.
fn bytes_of(alloc: Global, files: &mut MemFiles, name: &str) -> Vec<u8> {
    match files.read(alloc, name, 1_000_000) {
        Ok(bytes) => bytes,
        Err(_) => Vec::new(alloc),
    }
}

// The number of an image's run, and how many bytes it has: a header, and an entry for each sector that isn't zero.
fn run_and_length(alloc: Global, files: &mut MemFiles, name: &str) -> (u8, usize) {
    let bytes = bytes_of(alloc, files, name);
    (bytes.get(40).copied().unwrap_or(0), bytes.len())
}

// Each saved file by its name, its run, and how many sectors it has that aren't zero: of `second` and `third` the second segment, from which server 1 took an inode, and of `third` a sector of
// the log of server 2.
static SAVED: [(&str, u8, usize); 5] = [
    ("second", 2, 7),
    ("third", 4, 9),
    ("fresh", 1, 3),
    ("small", 1, 3),
    ("newer", 2, 6),
];

// The first saved file that is otherwise.
fn first_other_saved(alloc: Global, files: &mut MemFiles) -> Option<&'static str> {
    for (name, run, sectors) in &SAVED {
        if run_and_length(alloc, files, name) != (*run, 16 + 520 * *sectors) {
            return Some(*name);
        }
    }
    None
}

#[test]
fn images_go_from_run_to_run(rt: HostRuntime) -> Result<(), Fail> {
    let mut files = given(rt.alloc())?;
    let other = first_other(&rt, rt.alloc(), &mut files, &ROWS)?;
    assert!(rt; other == 0, "row {other}");
    let saved = first_other_saved(rt.alloc(), &mut files);
    assert!(rt; saved.is_none(), "{}", saved.unwrap_or(""));
    Ok(())
}

// ---- a fresh image, cut

// How a run on the fresh image without its last byte ends: at its last entry, whose sector is told.
fn cut(rt: &(impl Threads + Wait + Sync), alloc: Global) -> Result<(u8, u32, u64, u64), NoMemory> {
    let mut files = given(alloc)?;
    let _saved = first_other(rt, alloc, &mut files, &ROWS[10..11])?;
    let mut bytes = bytes_of(alloc, &mut files, "fresh");
    let _last = bytes.pop();
    files.put_file("cut", bytes.as_slice())?;
    let words = words_of(alloc, "run list --image cut")?;
    let (status, _) = call(
        rt,
        alloc,
        &words,
        &mut files,
        frang_outside::MemOutside::new(alloc),
    );
    Ok((status.code, status.line, status.at, status.sector))
}

#[test]
fn a_cut_image_is_refused_where_it_ends(rt: HostRuntime) -> Result<(), Fail> {
    assert!(rt; cut(&rt, rt.alloc())? == (6, 1, 1056, 10_737_418_240));
    Ok(())
}

// ---- faults

// What a saved run over this script of a fresh disk ends with where the get, or the put, of this number fails.
fn failing(
    rt: &(impl Threads + Wait + Sync),
    alloc: Global,
    gets: u64,
    puts: u64,
) -> Result<(u8, u32, u64, bool), NoMemory> {
    let mut files = given(alloc)?;
    let words = words_of(alloc, "run halted --save new")?;
    let gets = vec![in alloc; gets; 1]?;
    let puts = vec![in alloc; puts; 1]?;
    let out = FaultyOutside::new(alloc, gets, puts, Vec::new(alloc));
    let (status, _) = call(rt, alloc, &words, &mut files, out);
    let is_there = !bytes_of(alloc, &mut files, "new").is_empty();
    Ok((status.code, status.line, status.at, is_there))
}

#[test]
fn a_disk_that_fails_is_not_saved(rt: HostRuntime) -> Result<(), Fail> {
    // The sectors of the regions are got in their order: the parameters, then the logs.
    assert!(rt; failing(&rt, rt.alloc(), 1, 0)? == (9, 0, 0, false));
    assert!(rt; failing(&rt, rt.alloc(), 3, 0)? == (9, 0, 2_147_483_649, false));
    // The opening's first put, and none.
    assert!(rt; failing(&rt, rt.alloc(), 0, 1)? == (9, 0, 10_737_418_240, false));
    assert!(rt; failing(&rt, rt.alloc(), 0, 0)? == (0, 0, 0, true));
    Ok(())
}

// A run over files of which each is the script `halt`, and none can be written.
static UNSAVED: [Row; 1] = [("run any --save new", (7, 0, 0), "1 - ok\n")];

// The same where each is the image of no disk.
static NO_IMAGE: [Row; 1] = [("run any --image any", (6, 1, 0), "")];

fn ends(
    rt: &(impl Threads + Wait + Sync),
    alloc: Global,
    rows: &[Row],
) -> Result<(usize, u64), NoMemory> {
    let mut files = FixedFiles {
        image: Some(b"halt\n".to_vec(alloc)?),
        write_faults: 0,
    };
    let other = first_other(rt, alloc, &mut files, rows)?;
    Ok((other, files.write_faults))
}

#[test]
fn a_file_that_is_not_written_ends_a_run(rt: HostRuntime) -> Result<(), Fail> {
    assert!(rt; ends(&rt, rt.alloc(), &UNSAVED)? == (0, 1));
    assert!(rt; ends(&rt, rt.alloc(), &NO_IMAGE)? == (0, 0));
    Ok(())
}

// ---- a disk on an image that fails

// What a run on an image tells where this put fails: the opening puts the image's sectors in their order, and the parameters last.
fn opened_failing(
    rt: &(impl Threads + Wait + Sync),
    alloc: Global,
    put: u64,
) -> Result<bool, NoMemory> {
    let mut files = given(alloc)?;
    let words = words_of(alloc, "run list --image img")?;
    let puts = vec![in alloc; put; 1]?;
    let out = FaultyOutside::new(alloc, Vec::new(alloc), puts, Vec::new(alloc));
    let (status, out) = call(rt, alloc, &words, &mut files, out);
    let told = told_by(alloc, status, out.acts())?;
    let sector = match put {
        1 => 4_294_967_296,
        6 => 0,
        _ => 12_884_901_888,
    };
    Ok(is_so(&told, (9, 0, sector), ""))
}

#[test]
fn the_opening_puts_an_image_in_its_order(rt: HostRuntime) -> Result<(), Fail> {
    assert!(rt; opened_failing(&rt, rt.alloc(), 1)?);
    assert!(rt; opened_failing(&rt, rt.alloc(), 5)?);
    assert!(rt; opened_failing(&rt, rt.alloc(), 6)?);
    Ok(())
}
