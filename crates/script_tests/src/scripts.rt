// Scripts by hand: what each line asks, and the first fault of each bad one.
use crate::forms::{add, add_number, add_text, read};
use frang_base::{HostOp, Line, NoMemory, Op, Path, Script, What};
use std::alloc::Global;
use std::process::Abort;
use std::test::Fail;

// A blank, and the names of a path in brackets.
fn names(path: &Path, to: &mut Vec<u8>) -> Result<(), NoMemory> {
    add(b" [", to)?;
    let mut mark: &[u8] = b"";
    for name in path.as_slice() {
        add(mark, to)?;
        add(name.as_slice(), to)?;
        mark = b"|";
    }
    add(b"]", to)
}

// A blank and a number.
fn number(alloc: Global, n: u32, to: &mut Vec<u8>) -> Result<(), NoMemory> {
    add_number(alloc, u64::from(n), to)
}

fn word(op: &Op) -> &'static [u8] {
    match op {
        Op::Create { .. } => b"Create",
        Op::Mkdir { .. } => b"Mkdir",
        Op::Link { .. } => b"Link",
        Op::Symlink { .. } => b"Symlink",
        Op::Unlink { .. } => b"Unlink",
        Op::Rmdir { .. } => b"Rmdir",
        Op::Rename { .. } => b"Rename",
        Op::Write { .. } => b"Write",
        Op::Fill { .. } => b"Fill",
        Op::Truncate { .. } => b"Truncate",
        Op::Read { .. } => b"Read",
        Op::Stat { .. } => b"Stat",
        Op::List { .. } => b"List",
        Op::Readlink { .. } => b"Readlink",
        Op::Time { .. } => b"Time",
        Op::Sync => b"Sync",
        Op::Mount => b"Mount",
        Op::Unmount => b"Unmount",
        Op::Crash => b"Crash",
        Op::CrashAt { .. } => b"CrashAt",
        Op::CutAt { .. } => b"CutAt",
        Op::Stall => b"Stall",
    }
}

// The path that stands first, where one does.
fn first_path(op: &Op, to: &mut Vec<u8>) -> Result<(), NoMemory> {
    match op {
        Op::Create { path }
        | Op::Mkdir { path }
        | Op::Link { path, .. }
        | Op::Symlink { path, .. }
        | Op::Unlink { path }
        | Op::Rmdir { path }
        | Op::Rename { path, .. }
        | Op::Write { path, .. }
        | Op::Fill { path, .. }
        | Op::Truncate { path, .. }
        | Op::Read { path, .. }
        | Op::Stat { path }
        | Op::List { path }
        | Op::Readlink { path }
        | Op::Time { path } => names(path, to),
        _ => Ok(()),
    }
}

// A second path or a text.
fn last_text(op: &Op, to: &mut Vec<u8>) -> Result<(), NoMemory> {
    match op {
        Op::Link { to: other, .. } | Op::Rename { to: other, .. } => names(other, to),
        Op::Symlink { target, .. } => add_text(target.as_slice(), to),
        Op::Write { bytes, .. } => add_text(bytes.as_slice(), to),
        _ => Ok(()),
    }
}

fn numbers(alloc: Global, op: &Op, to: &mut Vec<u8>) -> Result<(), NoMemory> {
    match op {
        Op::Write { off, .. } => number(alloc, *off, to),
        Op::Fill { off, len, byte, .. } => {
            number(alloc, *off, to)?;
            number(alloc, *len, to)?;
            number(alloc, u32::from(*byte), to)
        }
        Op::Truncate { len, .. } => number(alloc, *len, to),
        Op::Read { off, len, .. } => {
            number(alloc, *off, to)?;
            number(alloc, *len, to)
        }
        Op::CrashAt { k } | Op::CutAt { k } => number(alloc, *k, to),
        _ => Ok(()),
    }
}

fn server_op(alloc: Global, op: &Op, to: &mut Vec<u8>) -> Result<(), NoMemory> {
    add_text(word(op), to)?;
    first_path(op, to)?;
    numbers(alloc, op, to)?;
    last_text(op, to)
}

fn host_op(alloc: Global, op: &HostOp, to: &mut Vec<u8>) -> Result<(), NoMemory> {
    match op {
        HostOp::Barrier => add_text(b"Barrier", to),
        HostOp::Tick { n } => {
            add_text(b"Tick", to)?;
            number(alloc, *n, to)
        }
        HostOp::Halt => add_text(b"Halt", to),
    }
}

// A line by its number, who is asked, and the names of the forms.
fn line(alloc: Global, line: &Line, to: &mut Vec<u8>) -> Result<(), NoMemory> {
    let front = format!(in alloc; "{} {}", line.number, line.who.0)?;
    to.extend_from_slice(front.as_bytes())?;
    match &line.what {
        What::Server(op) => server_op(alloc, op, to),
        What::Host(op) => host_op(alloc, op, to),
    }
}

fn described(alloc: Global, script: &Script) -> Result<Vec<u8>, NoMemory> {
    let mut text = Vec::new(alloc);
    for one in script.as_slice() {
        line(alloc, one, &mut text)?;
        text.push(b'\n')?;
    }
    Ok(text)
}

// The lines that a script is read as, or nothing where it has a fault.
fn read_as(alloc: Global, script: &[u8]) -> Result<Vec<u8>, NoMemory> {
    match read(alloc, script) {
        Ok(script) => described(alloc, &script),
        Err(_) => Ok(Vec::new(alloc)),
    }
}

fn expect_read(rt: &impl Abort, alloc: Global, script: &str, wanted: &str) -> Result<(), Fail> {
    let text = read_as(alloc, script.as_bytes())?;
    assert!(rt; text.as_slice() == wanted.as_bytes(), "{script}");
    Ok(())
}

// A script, the line of its first fault and the kind of that.
type Fault = (&'static str, u32, u8);

// Whether a script isn't read for a fault of this kind at this line.
fn is_bad(alloc: Global, script: &[u8], line: u32, kind: u8) -> bool {
    match read(alloc, script) {
        Ok(_) => false,
        Err(fault) => fault.0 == line && fault.1 == kind,
    }
}

fn expect_bad(rt: &impl Abort, alloc: Global, script: &[u8], line: u32, kind: u8) {
    assert!(rt;
        is_bad(alloc, script, line, kind),
        "line {line}, kind {kind}"
    );
}

// All of these lines are bad alone, with this kind.
fn expect_all_bad(rt: &impl Abort, alloc: Global, scripts: &str, kind: u8) {
    for script in scripts.lines() {
        expect_bad(rt, alloc, script.as_bytes(), 1, kind);
    }
}

const EACH_COMMAND: &str = "0 mount
15 unmount
9 sync
10 stall
0 create /a
0 mkdir /a/b
0 unlink /a
0 rmdir /
0 stat /
0 list /a/b/c
0 readlink /a
0 time /a
0 link /a /b/c
0 rename /a /
0 symlink /a t
0 write /a 0 hello
0 fill /a 5 9 0a
0 truncate /a 7
0 read /a 2 3
0 crash
0 crash 3
0 cut 4
barrier
tick 5
halt
";

const EACH_COMMAND_READ: &str = "1 0 Mount
2 15 Unmount
3 9 Sync
4 10 Stall
5 0 Create [a]
6 0 Mkdir [a|b]
7 0 Unlink [a]
8 0 Rmdir []
9 0 Stat []
10 0 List [a|b|c]
11 0 Readlink [a]
12 0 Time [a]
13 0 Link [a] [b|c]
14 0 Rename [a] []
15 0 Symlink [a] t
16 0 Write [a] 0 hello
17 0 Fill [a] 5 9 10
18 0 Truncate [a] 7
19 0 Read [a] 2 3
20 0 Crash
21 0 CrashAt 3
22 0 CutAt 4
23 255 Barrier
24 255 Tick 5
25 255 Halt
";

const BOUNDS: &str = "0 symlink /a /b/../c
0 write /a 4294967295 x
0 fill /a 0 1 00
0 fill /a 4294967295 1114112 fF
0 fill /a 0 1 9A
0 truncate /a 0
0 truncate /a 4294967295
0 read /a 0 1
0 read /a 4294967295 4096
0 crash 1
0 crash 1000000
0 cut 1
0 cut 1000000
tick 1
tick 10000
0 create /...
0 create /.a/b.
0 create /#
0 create /\u{e9}
0 write /a 0 \u{2603}";

const BOUNDS_READ: &str = "1 0 Symlink [a] /b/../c
2 0 Write [a] 4294967295 x
3 0 Fill [a] 0 1 0
4 0 Fill [a] 4294967295 1114112 255
5 0 Fill [a] 0 1 154
6 0 Truncate [a] 0
7 0 Truncate [a] 4294967295
8 0 Read [a] 0 1
9 0 Read [a] 4294967295 4096
10 0 CrashAt 1
11 0 CrashAt 1000000
12 0 CutAt 1
13 0 CutAt 1000000
14 255 Tick 1
15 255 Tick 10000
16 0 Create [...]
17 0 Create [.a|b.]
18 0 Create [#]
19 0 Create [\u{e9}]
20 0 Write [a] 0 \u{2603}
";

#[test]
fn each_command_is_read_to_its_bounds(rt: HostRuntime) -> Result<(), Fail> {
    expect_read(&rt, rt.alloc(), EACH_COMMAND, EACH_COMMAND_READ)?;
    expect_read(&rt, rt.alloc(), BOUNDS, BOUNDS_READ)
}

// A script, and the lines that it is read as.
static PARTED: [(&str, &str); 14] = [
    ("", ""),
    ("\n\n", ""),
    ("0 mount", "1 0 Mount\n"),
    ("0 mount\r\n", "1 0 Mount\n"),
    ("0 write /a 0 x\r\n", "1 0 Write [a] 0 x\n"),
    ("\r\n0 sync\r\n", "2 0 Sync\n"),
    (" \t0\t \tmount\t \n", "1 0 Mount\n"),
    ("\t0 create\t/a", "1 0 Create [a]\n"),
    ("\n\n0 mount\n", "3 0 Mount\n"),
    ("# 0 mount\n0 sync\n", "2 0 Sync\n"),
    ("#\n#\u{1}\u{7f}\n", ""),
    (" \t \n0 mount\n\n0 sync", "2 0 Mount\n4 0 Sync\n"),
    (
        "1 mount\n0 mount\nbarrier\n",
        "1 1 Mount\n2 0 Mount\n3 255 Barrier\n",
    ),
    ("halt\n\n# after the end\n \t", "1 255 Halt\n"),
];

#[test]
fn lines_are_counted_and_words_parted(rt: HostRuntime) -> Result<(), Fail> {
    for (script, wanted) in &PARTED {
        expect_read(&rt, rt.alloc(), script, wanted)?;
    }
    Ok(())
}

const UNKNOWN_WORDS: &str = "mount
Barrier
-1 mount
+1 mount
0x mount
 # 0 mount
\u{feff}0 mount
0 Create /a
0 creat /a
0 barrier
0 tick 1";

const NO_SERVERS: &str = "16 mount
00 mount
01 mount
015 mount
255 mount
18446744073709551616 mount";

#[test]
fn bad_words_are_refused(rt: HostRuntime) {
    expect_all_bad(&rt, rt.alloc(), UNKNOWN_WORDS, 2);
    expect_all_bad(&rt, rt.alloc(), NO_SERVERS, 7);
}

const TOO_FEW_WORDS: &str = "0
0 create
0 time
0 link /a
0 rename
0 symlink /a
0 write /a 0
0 fill /a 0 1
0 truncate /a
0 read /a 0
0 cut
tick";

const TOO_MANY_WORDS: &str = "0 mount 0
0 unmount 0
0 sync 0
0 stall 1
0 create /a /b
0 link /a /b /c
0 symlink /a t u
0 write /a 0 two words
0 fill /a 0 1 00 0
0 truncate /a 0 0
0 read /a 0 1 1
0 crash 1 1
0 cut 1 1
barrier x
halt x
tick 1 1";

#[test]
fn words_are_counted(rt: HostRuntime) {
    expect_all_bad(&rt, rt.alloc(), TOO_FEW_WORDS, 3);
    expect_all_bad(&rt, rt.alloc(), TOO_MANY_WORDS, 4);
}

const BAD_NUMBERS: &str = "0 truncate /a x1
0 truncate /a 01
0 truncate /a 00
0 truncate /a -1
0 truncate /a +1
0 truncate /a 1e3
0 truncate /a 4294967296
0 truncate /a 18446744073709551616
0 write /a 4294967296 x
0 fill /a 4294967296 1 00
0 fill /a 0 0 00
0 fill /a 0 1114113 00
0 fill /a 0 1 0
0 fill /a 0 1 000
0 fill /a 0 1 g0
0 fill /a 0 1 0G
0 read /a 4294967296 1
0 read /a 0 0
0 read /a 0 4097
0 crash 0
0 crash 1000001
0 crash 01
0 cut 0
0 cut 1000001
tick 0
tick 10001
tick 01";

const BAD_PATHS: &str = "0 create a
0 create //
0 create /a/
0 create /a//b
0 create /.
0 create /..
0 create /a/../b
0 link a /b
0 rename /a b";

#[test]
fn bad_arguments_are_refused(rt: HostRuntime) {
    expect_all_bad(&rt, rt.alloc(), BAD_NUMBERS, 5);
    expect_all_bad(&rt, rt.alloc(), BAD_PATHS, 6);
}

static SEVERAL_LINES: [Fault; 6] = [
    ("0 mount\n0 truncate /a x1\n", 2, 5),
    ("0 mount\n0 nonsense\n16 mount\n", 2, 2),
    ("\n#\n\n0\nmount\n", 4, 3),
    ("\r\n\r\nbarrier x\r\n", 3, 4),
    ("halt\n0 mount\n", 2, 11),
    ("halt\n\n# x\nhalt\n", 4, 11),
];

#[test]
fn the_first_bad_line_counts(rt: HostRuntime) {
    for (script, line, kind) in &SEVERAL_LINES {
        expect_bad(&rt, rt.alloc(), script.as_bytes(), *line, *kind);
    }
}

// Each of these lines has several faults, of which that of the table comes first.
const BYTES_FIRST: &str = "16 \u{1}
nonsense \u{1}
0 nonsense \u{1}
0 create \u{1}/a /b
0 truncate /\u{1} x";

const SERVER_FIRST: &str = "16 nonsense
16
16 mount x
16 create a";

const WORD_FIRST: &str = "nonsense a b c
0 nonsense
0 nonsense a b c d e";

const FEW_WORDS_FIRST: &str = "0 link a
0 fill a x
0 truncate a";

const MANY_WORDS_FIRST: &str = "0 create a b
0 truncate a x y
0 crash x y
tick x y";

const PATH_FIRST: &str = "0 truncate a x
0 fill a x 0 zz
0 read a x y";

const NUMBER_FIRST: &str = "0 fill /a x 0 zz";

#[test]
fn faults_of_a_line_have_an_order(rt: HostRuntime) {
    expect_all_bad(&rt, rt.alloc(), BYTES_FIRST, 1);
    expect_all_bad(&rt, rt.alloc(), SERVER_FIRST, 7);
    expect_all_bad(&rt, rt.alloc(), WORD_FIRST, 2);
    expect_all_bad(&rt, rt.alloc(), FEW_WORDS_FIRST, 3);
    expect_all_bad(&rt, rt.alloc(), MANY_WORDS_FIRST, 4);
    expect_all_bad(&rt, rt.alloc(), PATH_FIRST, 6);
    expect_all_bad(&rt, rt.alloc(), NUMBER_FIRST, 5);
}

static AFTER_HALT: [Fault; 7] = [
    ("halt\n0 create /\u{7f}\n", 2, 1),
    ("halt\n16 mount", 2, 11),
    ("halt\nnonsense", 2, 11),
    ("halt\n0 nonsense", 2, 11),
    ("halt\n0 create", 2, 11),
    ("halt\n0 create /a /b", 2, 11),
    ("halt\n0 create a", 2, 11),
];

#[test]
fn after_halt_bad_bytes_come_first(rt: HostRuntime) {
    for (script, line, kind) in &AFTER_HALT {
        expect_bad(&rt, rt.alloc(), script.as_bytes(), *line, *kind);
    }
}

static NO_TEXTS: [&[u8]; 16] = [
    b"\xff\n",
    b"0 create /\xc3\n",
    b"0 create /\xc3(\n",
    b"0 create /\xc0\x80\n",
    b"0 create /\xed\xa0\x80\n",
    b"0 create /\xf4\x90\x80\x80\n",
    b"0 create /\x80\n",
    b"0 mount\xff\n",
    b"0 create /a\x00\n",
    b"0 create /a\x1f\n",
    b"0 create /a\x7f\n",
    b"0\x0bmount\n",
    b"0 mount\r",
    b"0 mount\r\r\n",
    b"0 mount\r \n",
    b"\r",
];

#[test]
fn bytes_that_are_no_text_are_refused(rt: HostRuntime) {
    for script in &NO_TEXTS {
        expect_bad(&rt, rt.alloc(), script, 1, 1);
    }
}
