// Tables of lines and their answers, worked out from the table of refusals: what comes first is answered.
use crate::builders::{DONE, tell};
use frang_base::NoMemory;
use std::alloc::Global;
use std::fmt::Write;
use std::process::Abort;
use std::sync::Wait;
use std::test::Fail;
use std::thread::Threads;

// Lines of server 0 with their answers, one after another.
const NAMES: &str = "create /a : down
mount : mounted
mount : already
create / : exist
mkdir / : exist
symlink / t : exist
create /a : ok
create /a : exist
mkdir /a : exist
symlink /a t : exist
create /a/b : notdir
create /b/c : noent
mkdir /b/c : noent
symlink /b/c t : noent
mkdir /d : ok
create /d : exist
mkdir /d : exist
create /d/a : ok
mkdir /d/e : ok
symlink /d/l t : ok
create /d/l/x : noent
create /d/e/f/g : noent
create /d/a/b/c : notdir
stat / : dir 2
stat /d : dir 3
stat /d/e : dir 0
stat /a : file 0 1
stat /d/l : link 1
stat /x : noent
stat /x/y : noent
stat /a/x : notdir
stat /d/l/x : noent
list / : names a d
list /d : names a e l
list /d/e : names
list /a : notdir
list /d/l : noent
list /x : noent
list /a/x : notdir
readlink /d/l : target t
readlink /a : inval
readlink /d : inval
readlink / : inval
readlink /x : noent
readlink /a/x : notdir";

const LINKS: &str = "mount : mounted
create /a : ok
mkdir /d : ok
symlink /l t : ok
link / /x : isdir
link /d /x : isdir
link /d / : isdir
link /x / : noent
link /x /y : noent
link /a/b /y : notdir
link /a / : exist
link /a /a : exist
link /a /d : exist
link /a /x/y : noent
link /a /l/y : noent
link /a /a/y : notdir
link /a /b : ok
stat /a : file 0 2
stat /b : file 0 2
link /b /d/c : ok
stat /a : file 0 3
link /l /m : ok
stat /m : link 1
readlink /m : target t
write /b 0 hi : ok
read /d/c 0 9 : data 6869
unlink / : isdir
unlink /d : isdir
unlink /x : noent
unlink /x/y : noent
unlink /a/x : notdir
unlink /a : ok
unlink /a : noent
stat /b : file 2 2
unlink /b : ok
stat /d/c : file 2 1
unlink /d/c : ok
stat /d/c : noent
stat /d : dir 0
unlink /l : ok
readlink /m : target t
unlink /m : ok
list / : names d";

const MOVES: &str = "mount : mounted
rmdir / : inval
rmdir /x : noent
create /f : ok
rmdir /f : notdir
rmdir /f/x : notdir
symlink /l t : ok
rmdir /l : notdir
mkdir /d : ok
mkdir /d/e : ok
rmdir /d : notempty
rmdir /d/e : ok
rmdir /d : ok
rmdir /d : noent
rename / /x : inval
rename /f / : inval
rename / / : inval
rename /x / : inval
rename /x /y : noent
rename /x /y/z : noent
rename /f/x /y : notdir
rename /f /x/y : noent
rename /f /f/y : notdir
rename /f /l/y : noent
rename /f /f : ok
mkdir /d : ok
rename /d /d/x : inval
rename /d /d/x/y : noent
mkdir /d/e : ok
rename /d /d/e : inval
rename /d /d/e/g : inval
rename /d/e /d : notempty
rename /d /d : ok
rename /d /f : notdir
rename /f /d : isdir
rename /l /d : isdir
mkdir /g : ok
rename /g /d : notempty
rename /d /g : ok
stat /d : noent
list /g : names e
create /g/h : ok
rename /g/e /g/k : ok
list /g : names h k
rename /g/k /g/h : notdir
rename /g/h /g/k : isdir
rename /f /g/h : ok
stat /f : noent
list / : names g l
rename /l /g/h : ok
readlink /g/h : target t
rename /g/h /g/k/h : ok
list /g : names k
list /g/k : names h
rename /g/k /k : ok
list / : names g k
rename /k /g/k : ok
stat /g/k/h : link 1
rename /g/k/h /g/k/h : ok
link /g/k/h /n : ok
rename /n /g/k/h : ok
list / : names g n";

const BYTES: &str = "mount : mounted
create /f : ok
mkdir /d : ok
symlink /l abc : ok
write / 0 x : isdir
write /d 0 x : isdir
write /l 0 x : noent
write /x 0 x : noent
write /f/x 0 x : notdir
fill / 0 1 00 : isdir
fill /d 0 1 00 : isdir
fill /l 0 1 00 : noent
fill /x 0 1 00 : noent
truncate / 0 : isdir
truncate /d 0 : isdir
truncate /l 0 : noent
truncate /x 0 : noent
read / 0 1 : isdir
read /d 0 1 : isdir
read /l 0 1 : noent
read /x 0 1 : noent
read /f/x 0 1 : notdir
read /f 0 1 : data
read /f 1 1 : badoffset
write /f 1 x : badoffset
fill /f 1 1 00 : badoffset
truncate /f 1 : badoffset
truncate /f 0 : ok
write /f 0 abcdef : ok
stat /f : file 6 1
read /f 0 6 : data 616263646566
read /f 2 2 : data 6364
read /f 5 9 : data 66
read /f 6 1 : data
read /f 7 1 : badoffset
write /f 2 XY : ok
read /f 0 9 : data 616258596566
write /f 6 g : ok
stat /f : file 7 1
truncate /f 3 : ok
stat /f : file 3 1
read /f 0 9 : data 616258
fill /f 3 2 00 : ok
read /f 0 9 : data 6162580000
truncate /f 8 : badoffset
fill /f 5 3 0a : ok
read /f 4 4 : data 000a0a0a
truncate /f 0 : ok
read /f 0 4 : data
fill /f 0 4 ff : ok
read /f 0 4 : data ffffffff
write /f 4294967295 x : badoffset
fill /f 0 1114112 01 : ok
stat /f : file 1114112 1
write /f 1114112 x : toobig
write /f 1114111 xy : toobig
write /f 1114111 x : ok
read /f 1114110 4 : data 0178
write /f 1114113 x : badoffset
fill /f 1 1114112 02 : toobig
truncate /f 65537 : ok
truncate /f 65536 : ok
stat /f : file 65536 1
read /f 65535 4 : data 01";

const MOUNTS: &str = "sync : down
unmount : down
stat / : down
mount : mounted
sync : ok
unmount : ok
unmount : down
sync : down
create /a : down
mount : mounted
create /a : ok
unmount : ok
stat /a : down
mount : mounted
stat /a : file 0 1
mount : already";

// Links are followed on the way, and at the end by what writes, reads or lists; a target goes from the root or from its directory.
const FOLLOWED: &str = "mount : mounted
mkdir /d : ok
create /d/f : ok
write /d/f 0 hi : ok
symlink /l d : ok
symlink /m /l/f : ok
read /m 0 2 : data 6869
stat /m : link 4
symlink /o o : ok
read /o 0 1 : loop
list /l : names f
rename /d /l/e : inval
write /m 2 gh : ok
fill /l/f 4 1 21 : ok
truncate /m 4 : ok
read /d/f 0 9 : data 68696768
create /l/x : ok
list /d : names f x
symlink /d/k x : ok
write /l/k 0 z : ok
stat /d/x : file 1 1
symlink /d/p a//b : ok
read /d/p 0 1 : noent
stat /d/p/x : noent
list /m : notdir
write /l 0 x : isdir
symlink /r / : ok
list /r/l/.x : noent
stat /r/r/d : dir 4
rename /r/d/x /d/y : ok
rename /d/y /l/y : ok
link /d/y /o/y : loop
link /d /o/y : isdir
link /x /o/y : noent
rename / /o/y : inval
rename /o/y / : inval
rename /x /o/y : noent
unlink /m : ok
stat /d/f : file 4 1
readlink /l : target d
mkdir /l : exist
rmdir /l : notdir";

// Eight links are followed, and the ninth isn't.
const CHAIN: &str = "mount : mounted
create /f : ok
symlink /c1 /f : ok
symlink /c2 /c1 : ok
symlink /c3 /c2 : ok
symlink /c4 /c3 : ok
symlink /c5 /c4 : ok
symlink /c6 /c5 : ok
symlink /c7 /c6 : ok
symlink /c8 /c7 : ok
symlink /c9 /c8 : ok
read /c8 0 1 : data
read /c9 0 1 : loop
read /f/x 0 1 : notdir
read /c7/x 0 1 : notdir
stat /c9 : link 3";

// One segment has 64 inodes and one large block, and a file's end is looked at before its blocks.
const ONE_SEGMENT: &str = "mount : mounted
create /f : ok
create /g : ok
fill /f 0 65536 00 : ok
fill /g 0 65536 00 : ok
fill /f 65536 1 00 : ok
fill /g 65536 1 00 : nospace large
fill /g 65536 1048576 00 : nospace large
fill /g 65536 1048577 00 : toobig
fill /g 65537 1 00 : badoffset
stat /g : file 65536 1
truncate /f 65536 : ok
fill /g 65536 1 00 : ok
fill /f 65536 1 00 : nospace large";

// Adds a row's line and its answer. What is no row is refused by the error that want of memory has.
fn push_row(
    number: u64,
    row: &str,
    script: &mut String,
    answers: &mut String,
) -> Result<(), NoMemory> {
    let Some((line, answer)) = row.split_once(" : ") else {
        return Err(NoMemory);
    };
    write!(script, "0 {line}\n")?;
    write!(answers, "{number} 0 {answer}\n")?;
    Ok(())
}

// The script and the answers of a table.
fn split_table(alloc: Global, table: &str) -> Result<(String, String), NoMemory> {
    let mut script = String::new(alloc);
    let mut answers = String::new(alloc);
    let mut number = 0u64;
    for row in table.split('\n') {
        number = number.saturating_add(1);
        push_row(number, row, &mut script, &mut answers)?;
    }
    Ok((script, answers))
}

// The answers begin what is said, before the lines of the tree.
fn expect_table(
    rt: &(impl Abort + Threads + Wait + Sync),
    alloc: Global,
    words: &[&str],
    table: &str,
) -> Result<(), Fail> {
    let (script, answers) = split_table(alloc, table)?;
    assert!(rt;
        begins_so(rt, alloc, words, script.as_str(), answers.as_str())?,
        "{table}"
    );
    Ok(())
}

// What is said of the script begins so, and goes on.
fn begins_so(
    rt: &(impl Threads + Wait + Sync),
    alloc: Global,
    words: &[&str],
    script: &str,
    answers: &str,
) -> Result<bool, NoMemory> {
    let told = tell(rt, alloc, words, script.as_bytes())?;
    let is_longer = told.text.len() > answers.len();
    Ok(told.status == DONE && is_longer && told.text.starts_with(answers.as_bytes()))
}

static TABLES: [&str; 7] = [NAMES, LINKS, MOVES, BYTES, MOUNTS, FOLLOWED, CHAIN];

#[test]
fn lines_are_answered_by_what_comes_first(rt: HostRuntime) -> Result<(), Fail> {
    for table in &TABLES {
        expect_table(&rt, rt.alloc(), &["run", "s"], table)?;
    }
    Ok(())
}

#[test]
fn a_segment_has_one_large_block(rt: HostRuntime) -> Result<(), Fail> {
    expect_table(
        &rt,
        rt.alloc(),
        &["run", "s", "--segments", "1"],
        ONE_SEGMENT,
    )
}

// Adds a line with each number from one to another in place of `#`, and the answer that each gets.
fn push_numbered(table: &mut String, row: &str, from: u32, to: u32) -> Result<(), NoMemory> {
    if let Some((before, after)) = row.split_once("#") {
        for n in from..=to {
            write!(table, "{before}{n}{after}\n")?;
        }
    }
    Ok(())
}

// A blocks' table: a directory and its parent have 17 blocks, of which the parent keeps 16 and no file gets any.
fn crowded(alloc: Global) -> Result<String, NoMemory> {
    let mut table = format!(in alloc; "mount : mounted\nmkdir /d : ok\ncreate /d/x : ok\n")?;
    push_numbered(&mut table, "link /d/x /n# : ok", 1, 895)?;
    table.push_str("link /d/x /n896 : dirfull\nstat / : dir 896\n")?;
    push_numbered(&mut table, "unlink /n# : ok", 1, 895)?;
    table.push_str("unlink /d/x : ok\nrmdir /d : ok\n")?;
    push_numbered(&mut table, "create /f# : ok", 1, 63)?;
    table.push_str("create /g : nospace inode\nmkdir /g : nospace inode\n")?;
    push_numbered(&mut table, "fill /f# 0 65536 00 : ok", 1, 62)?;
    table.push_str("fill /f63 0 65536 00 : nospace data 17\nfill /f63 0 61440 00 : ok\n")?;
    table.push_str("write /f63 61440 x : nospace data 17\ntruncate /f1 61440 : ok\n")?;
    table.push_str("write /f63 61440 x : ok")?;
    Ok(table)
}

#[test]
fn a_block_that_was_a_directorys_holds_no_bytes(rt: HostRuntime) -> Result<(), Fail> {
    let alloc = rt.alloc();
    let table = crowded(alloc)?;
    expect_table(&rt, alloc, &["run", "s", "--segments", "1"], table.as_str())
}
