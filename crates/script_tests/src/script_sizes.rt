// Scripts at their limits, and scripts printed and read again.
use crate::forms::{add, read};
use frang_base::NoMemory;
use script_lang::print_script;
use std::alloc::Global;
use std::process::Abort;
use std::test::Fail;

// A text in which one part stands many times.
fn repeated(
    alloc: Global,
    front: &[u8],
    part: &[u8],
    count: usize,
    back: &[u8],
) -> Result<Vec<u8>, NoMemory> {
    let mut text = Vec::new(alloc);
    add(front, &mut text)?;
    for _ in 0..count {
        add(part, &mut text)?;
    }
    add(back, &mut text)?;
    Ok(text)
}

// How many lines are read, or the line and the kind of the first fault.
type Wanted = Result<usize, (u32, u8)>;

fn is_read(alloc: Global, script: &[u8], wanted: &Wanted) -> bool {
    match (read(alloc, script), wanted) {
        (Ok(script), Ok(lines)) => script.len() == *lines,
        (Err((line, kind)), Err(wanted)) => line == wanted.0 && kind == wanted.1,
        _ => false,
    }
}

// What stands before a part, the part, how often it stands there, what stands behind it, and what is wanted.
type Row = (&'static str, &'static str, usize, &'static str, Wanted);

fn expect_rows(rt: &impl Abort, alloc: Global, rows: &[Row]) -> Result<(), Fail> {
    for (front, part, count, back, wanted) in rows {
        let text = repeated(
            alloc,
            front.as_bytes(),
            part.as_bytes(),
            *count,
            back.as_bytes(),
        )?;
        assert!(rt; is_read(alloc, &text, wanted), "{front}{part}");
    }
    Ok(())
}

static WORDS: [Row; 15] = [
    ("0 create /", "a", 64, "", Ok(1)),
    ("0 create /", "a", 65, "", Err((1, 6))),
    ("0 create /b/", "a", 65, "/b", Err((1, 6))),
    ("0 create ", "/a", 32, "", Ok(1)),
    ("0 create ", "/a", 33, "", Err((1, 6))),
    ("0 rename /a ", "/a", 33, "", Err((1, 6))),
    ("0 symlink /a ", "t", 384, "", Ok(1)),
    ("0 symlink /a ", "t", 385, "", Err((1, 10))),
    ("0 write /a 0 ", "t", 512, "\n", Ok(1)),
    ("0 write /a 0 ", "t", 513, "\n", Err((1, 10))),
    ("0 write /a 0 ", "\u{e9}", 256, "", Ok(1)),
    ("0 write /a 0 ", "\u{e9}", 257, "", Err((1, 10))),
    ("0 symlink a ", "t", 385, "", Err((1, 6))),
    ("0 write /a x ", "t", 513, "", Err((1, 5))),
    ("0 write /a 0 b ", "t", 513, "", Err((1, 4))),
];

#[test]
fn words_have_limits(rt: HostRuntime) -> Result<(), Fail> {
    expect_rows(&rt, rt.alloc(), &WORDS)
}

const NAME_OF_63: &str = "/aaaaaaaaaaaaaaaaaaaaaaaaaaaaaaaaaaaaaaaaaaaaaaaaaaaaaaaaaaaaaaa";

static PATHS: [Row; 3] = [
    ("0 create ", NAME_OF_63, 16, "", Ok(1)),
    ("0 create ", NAME_OF_63, 16, "a", Err((1, 6))),
    ("0 link / ", NAME_OF_63, 16, "a\n", Err((1, 6))),
];

#[test]
fn paths_have_1024_bytes(rt: HostRuntime) -> Result<(), Fail> {
    assert!(&rt; NAME_OF_63.len() == 64);
    expect_rows(&rt, rt.alloc(), &PATHS)
}

static LINES: [Row; 9] = [
    ("", "\n", 65536, "", Ok(0)),
    ("", "\n", 65537, "", Err((65537, 8))),
    ("", "\n", 65535, "0 mount", Ok(1)),
    ("", "\n", 65536, "0 mount", Err((65537, 8))),
    ("", "\n", 65536, "#", Err((65537, 8))),
    ("", "\n", 65536, "\u{1}", Err((65537, 8))),
    ("halt\n", "\n", 65535, "0 mount", Err((65537, 8))),
    ("0\n", "\n", 65536, "", Err((1, 3))),
    ("", "0 mount\n", 65536, "", Ok(65536)),
];

#[test]
fn scripts_have_65536_lines(rt: HostRuntime) -> Result<(), Fail> {
    expect_rows(&rt, rt.alloc(), &LINES)
}

static BYTES: [Row; 5] = [
    ("", "#", 1048576, "", Ok(0)),
    ("", "#", 1048577, "", Err((0, 9))),
    ("\u{1}", "#", 1048576, "", Err((0, 9))),
    ("", "\n", 1048577, "", Err((0, 9))),
    ("0 mount\n", "#", 1048567, "\n", Ok(1)),
];

#[test]
fn scripts_have_1048576_bytes(rt: HostRuntime) -> Result<(), Fail> {
    expect_rows(&rt, rt.alloc(), &BYTES)
}

const EACH_COMMAND: &str = "# every command

 0\tmount \r
1 create /a
2 mkdir /a/b
3 link /a /b
4 symlink /c /a/../b
5 unlink /a
#
6 rmdir /a
7 rename /a /b
8 write /a 0 text
9 fill /a 4294967295 1114112 Ff
10 truncate /a 0
11 read /a 1 4096
12 stat /
13 list /
14 readlink /c
15 time /a

0 sync
0 crash
0 crash 1
0 cut 1000000
0 stall
0 unmount
barrier
tick 10000
halt
# the end";

const EACH_COMMAND_PRINTED: &str = "

0 mount
1 create /a
2 mkdir /a/b
3 link /a /b
4 symlink /c /a/../b
5 unlink /a

6 rmdir /a
7 rename /a /b
8 write /a 0 text
9 fill /a 4294967295 1114112 ff
10 truncate /a 0
11 read /a 1 4096
12 stat /
13 list /
14 readlink /c
15 time /a

0 sync
0 crash
0 crash 1
0 cut 1000000
0 stall
0 unmount
barrier
tick 10000
halt
";

// Adds a script as it is printed, and nothing where it has a fault.
fn printed(alloc: Global, script: &[u8], to: &mut Vec<u8>) -> Result<(), NoMemory> {
    match read(alloc, script) {
        Ok(script) => print_script(alloc, &script, to),
        Err(_) => Ok(()),
    }
}

#[test]
fn a_printed_script_is_read_again(rt: HostRuntime) -> Result<(), Fail> {
    let alloc = rt.alloc();
    let mut first = Vec::new(alloc);
    printed(alloc, EACH_COMMAND.as_bytes(), &mut first)?;
    assert!(&rt; first.as_slice() == EACH_COMMAND_PRINTED.as_bytes());
    let mut again = Vec::new(alloc);
    printed(alloc, &first, &mut again)?;
    assert!(&rt; again.as_slice() == first.as_slice());
    printed(alloc, b"0 sync", &mut again)?;
    assert!(&rt; again.as_slice().ends_with(b"halt\n0 sync\n"));
    Ok(())
}
