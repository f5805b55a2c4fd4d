// Said lines by hand: which line each text is, and texts that are none.
use crate::forms::{add, add_number, add_text};
use frang_base::{Name, NoMemory, Reply, Said};
use reply_text::{read_line, write_line};
use std::alloc::Global;
use std::process::Abort;
use std::test::Fail;

// A word, and a number behind it.
fn counted(alloc: Global, form: &[u8], n: u64, to: &mut Vec<u8>) -> Result<(), NoMemory> {
    add(form, to)?;
    add_number(alloc, n, to)
}

// A word, and a text behind it.
fn with_text(form: &[u8], text: &[u8], to: &mut Vec<u8>) -> Result<(), NoMemory> {
    add(form, to)?;
    add_text(text, to)
}

// A word, and names behind it.
fn listed(form: &[u8], names: &[Name], to: &mut Vec<u8>) -> Result<(), NoMemory> {
    add(form, to)?;
    for name in names {
        add_text(name.as_slice(), to)?;
    }
    Ok(())
}

fn plain_word(reply: &Reply) -> &'static [u8] {
    match reply {
        Reply::Ok => b"Ok",
        Reply::Mounted => b"Mounted",
        Reply::Exist => b"Exist",
        Reply::NoEnt => b"NoEnt",
        Reply::NotDir => b"NotDir",
        Reply::IsDir => b"IsDir",
        Reply::NotEmpty => b"NotEmpty",
        Reply::Inval => b"Inval",
        Reply::MLink => b"MLink",
        Reply::DirFull => b"DirFull",
        Reply::BadOffset => b"BadOffset",
        Reply::TooBig => b"TooBig",
        Reply::Loop => b"Loop",
        Reply::NoInode => b"NoInode",
        Reply::NoDirBlock => b"NoDirBlock",
        Reply::NoLarge => b"NoLarge",
        Reply::Down => b"Down",
        Reply::Expired => b"Expired",
        Reply::Io => b"Io",
        Reply::Already => b"Already",
        _ => b"another",
    }
}

// A reply by its form.
fn reply(alloc: Global, reply: &Reply, to: &mut Vec<u8>) -> Result<(), NoMemory> {
    match reply {
        Reply::Shown(bytes) => with_text(b"Shown", bytes.as_slice(), to),
        Reply::Names(names) => listed(b"Names", names.as_slice(), to),
        Reply::Target(target) => with_text(b"Target", target.as_slice(), to),
        Reply::File { size, links } => {
            counted(alloc, b"File", u64::from(*size), to)?;
            add_number(alloc, u64::from(*links), to)
        }
        Reply::Dir { entries } => counted(alloc, b"Dir", u64::from(*entries), to),
        Reply::Symlink { len } => counted(alloc, b"Symlink", u64::from(*len), to),
        Reply::Time { run, tick } => {
            counted(alloc, b"Time", u64::from(*run), to)?;
            add_number(alloc, u64::from(*tick), to)
        }
        Reply::NoBlock { m } => counted(alloc, b"NoBlock", u64::from(*m), to),
        other => add(plain_word(other), to),
    }
}

fn node(
    alloc: Global,
    path: &[u8],
    numbers: (u8, u32, u32),
    to: &mut Vec<u8>,
) -> Result<(), NoMemory> {
    let (kind, size, links) = numbers;
    with_text(b"Node", path, to)?;
    add_number(alloc, u64::from(kind), to)?;
    add_number(alloc, u64::from(size), to)?;
    add_number(alloc, u64::from(links), to)
}

fn recovery(alloc: Global, said: &Said, to: &mut Vec<u8>) -> Result<(), NoMemory> {
    match said {
        Said::Recovering { server, by } => {
            counted(alloc, b"Recovering", u64::from(server.0), to)?;
            add_number(alloc, u64::from(by.0), to)
        }
        Said::Recovered { server, keeps } => {
            counted(alloc, b"Recovered", u64::from(server.0), to)?;
            add_number(alloc, keeps.0, to)
        }
        _ => Ok(()),
    }
}

// A line by its form.
fn describe(alloc: Global, said: &Said, to: &mut Vec<u8>) -> Result<(), NoMemory> {
    match said {
        Said::Answer {
            server,
            line,
            reply: shown,
        } => {
            counted(alloc, b"Answer", u64::from(*line), to)?;
            add_number(alloc, u64::from(server.0), to)?;
            to.push(b' ')?;
            reply(alloc, shown, to)
        }
        Said::Dead { server } => counted(alloc, b"Dead", u64::from(server.0), to),
        Said::Renewed { server } => counted(alloc, b"Renewed", u64::from(server.0), to),
        Said::Redo { op } => counted(alloc, b"Redo", op.0, to),
        Said::Backup { line } => counted(alloc, b"Backup", u64::from(*line), to),
        Said::Locks { line } => counted(alloc, b"Locks", u64::from(*line), to),
        Said::Node {
            path,
            kind,
            size,
            links,
        } => node(alloc, path.as_slice(), (*kind, *size, *links), to),
        Said::End => with_text(b"End", b"", to),
        Said::Shown(text) => with_text(b"Report", text.as_slice(), to),
        other => recovery(alloc, other, to),
    }
}

// A line, and the form that it is read as.
type Row = (&'static str, &'static str);

// The form that a line is read as, and the line written again.
fn read_and_written(alloc: Global, line: &[u8]) -> Result<(Vec<u8>, Vec<u8>), NoMemory> {
    let mut form = Vec::new(alloc);
    let mut written = Vec::new(alloc);
    if let Some(said) = read_line(alloc, line)? {
        describe(alloc, &said, &mut form)?;
        write_line(alloc, &said, &mut written)?;
    }
    Ok((form, written))
}

fn expect_read(rt: &impl Abort, alloc: Global, rows: &[Row]) -> Result<(), Fail> {
    for (line, wanted) in rows {
        let (form, written) = read_and_written(alloc, line.as_bytes())?;
        assert!(rt; form.as_slice() == wanted.as_bytes(), "{line}");
        assert!(rt; written.as_slice() == line.as_bytes(), "{line}");
    }
    Ok(())
}

fn is_read(alloc: Global, line: &[u8]) -> Result<bool, NoMemory> {
    Ok(read_line(alloc, line)?.is_some())
}

// None of these lines is read.
fn expect_none(rt: &impl Abort, alloc: Global, lines: &[&str]) -> Result<(), Fail> {
    for line in lines {
        let is_read = is_read(alloc, line.as_bytes())?;
        assert!(rt; !is_read, "{line}");
    }
    Ok(())
}

static ANSWERS: [Row; 32] = [
    ("1 0 ok\n", "Answer 1 0 Ok"),
    ("4294967295 15 mounted\n", "Answer 4294967295 15 Mounted"),
    ("9 - ok\n", "Answer 9 255 Ok"),
    ("3 0 data\n", "Answer 3 0 Shown "),
    ("3 0 data 6162\n", "Answer 3 0 Shown ab"),
    ("4 0 file 0 1\n", "Answer 4 0 File 0 1"),
    (
        "4 0 file 4294967295 4294967295\n",
        "Answer 4 0 File 4294967295 4294967295",
    ),
    ("5 0 dir 896\n", "Answer 5 0 Dir 896"),
    ("6 0 link 384\n", "Answer 6 0 Symlink 384"),
    ("7 0 names\n", "Answer 7 0 Names"),
    ("7 0 names a b.c\n", "Answer 7 0 Names a b.c"),
    ("8 0 target /x/../y\n", "Answer 8 0 Target /x/../y"),
    ("9 0 time 1.7\n", "Answer 9 0 Time 1 7"),
    ("10 9 exist\n", "Answer 10 9 Exist"),
    ("10 9 noent\n", "Answer 10 9 NoEnt"),
    ("10 9 notdir\n", "Answer 10 9 NotDir"),
    ("10 9 isdir\n", "Answer 10 9 IsDir"),
    ("10 9 notempty\n", "Answer 10 9 NotEmpty"),
    ("10 9 inval\n", "Answer 10 9 Inval"),
    ("10 9 mlink\n", "Answer 10 9 MLink"),
    ("10 9 dirfull\n", "Answer 10 9 DirFull"),
    ("10 9 badoffset\n", "Answer 10 9 BadOffset"),
    ("10 9 toobig\n", "Answer 10 9 TooBig"),
    ("10 9 loop\n", "Answer 10 9 Loop"),
    ("10 9 nospace inode\n", "Answer 10 9 NoInode"),
    ("10 9 nospace dir\n", "Answer 10 9 NoDirBlock"),
    ("10 9 nospace data 3\n", "Answer 10 9 NoBlock 3"),
    ("10 9 nospace large\n", "Answer 10 9 NoLarge"),
    ("10 9 down\n", "Answer 10 9 Down"),
    ("10 9 expired\n", "Answer 10 9 Expired"),
    ("10 9 io\n", "Answer 10 9 Io"),
    ("10 9 already\n", "Answer 10 9 Already"),
];

static OTHER_LINES: [Row; 15] = [
    ("! dead 15\n", "Dead 15"),
    ("! recovering 3 by 4\n", "Recovering 3 4"),
    ("! recovering 0 by -\n", "Recovering 0 255"),
    ("! recovered 255 keeps 0.0\n", "Recovered 255 0"),
    ("! recovered 0 keeps 1.2\n", "Recovered 0 4294967298"),
    (
        "! recovered 7 keeps 4294967295.4294967295\n",
        "Recovered 7 18446744073709551615",
    ),
    ("! renewed 0\n", "Renewed 0"),
    ("= / dir 0\n", "Node / 2 0 0"),
    ("= /a/b file 5 1\n", "Node /a/b 1 5 1"),
    ("= /a link 3\n", "Node /a 3 3 0"),
    (
        "= /a/a/a/a/a/a/a/a/a/a/a/a/a/a/a/a/a/a/a/a/a/a/a/a/a/a/a/a/a/a/a/a/b dir 1\n",
        "Node /a/a/a/a/a/a/a/a/a/a/a/a/a/a/a/a/a/a/a/a/a/a/a/a/a/a/a/a/a/a/a/a/b 2 1 0",
    ),
    ("# 1.3\n", "Redo 4294967299"),
    ("! backup 7\n", "Backup 7"),
    ("! locks 9\n", "Locks 9"),
    ("! end\n", "End "),
];

#[test]
fn each_line_is_read(rt: HostRuntime) -> Result<(), Fail> {
    expect_read(&rt, rt.alloc(), &ANSWERS)?;
    expect_read(&rt, rt.alloc(), &OTHER_LINES)
}

static NO_ANSWERS: [&str; 55] = [
    "\n",
    "1\n",
    "1 0\n",
    "1 0 \n",
    " 1 0 ok\n",
    "1  0 ok\n",
    "1 0  ok\n",
    "1\t0 ok\n",
    "1 0 ok \n",
    "1 0 ok\r\n",
    "1 0 ok 1\n",
    "1 0 OK\n",
    "1 0 okay\n",
    "01 0 ok\n",
    "x 0 ok\n",
    "- 0 ok\n",
    "4294967296 0 ok\n",
    "1 16 ok\n",
    "1 00 ok\n",
    "1 255 ok\n",
    "1 -- ok\n",
    "1 0 data \n",
    "1 0 data 0\n",
    "1 0 data 0g\n",
    "1 0 data AB\n",
    "1 0 data 00 00\n",
    "1 0 file 1\n",
    "1 0 file 1 2 3\n",
    "1 0 file 01 1\n",
    "1 0 file 4294967296 1\n",
    "1 0 dir\n",
    "1 0 dir 1 1\n",
    "1 0 link\n",
    "1 0 link 1 1\n",
    "1 0 names \n",
    "1 0 names a  b\n",
    "1 0 names a/b\n",
    "1 0 names .\n",
    "1 0 names \u{7f}\n",
    "1 0 target\n",
    "1 0 target \n",
    "1 0 target a b\n",
    "1 0 target \u{7f}\n",
    "1 0 time 1\n",
    "1 0 time 1.\n",
    "1 0 time .1\n",
    "1 0 time 1.2.3\n",
    "1 0 time 4294967296.0\n",
    "1 0 nospace\n",
    "1 0 nospace data\n",
    "1 0 nospace data x\n",
    "1 0 nospace data 1 1\n",
    "1 0 nospace inode 1\n",
    "1 0 nospace disk\n",
    "1 0 ok",
];

static NO_OTHER_LINES: [&str; 44] = [
    "!\n",
    "!end\n",
    "! End\n",
    "! end 1\n",
    "! dead\n",
    "! dead 16\n",
    "! dead -\n",
    "! dead 1 2\n",
    "! recovering 1\n",
    "! recovering 1 by\n",
    "! recovering 1 by 16\n",
    "! recovering - by 1\n",
    "! recovering 1 at 2\n",
    "! recovered 256 keeps 0.0\n",
    "! recovered 1\n",
    "! recovered 1 keeps\n",
    "! recovered 1 keeps 0\n",
    "! recovered 1 keeps 00.0\n",
    "! recovered 1 keeps 0.4294967296\n",
    "! renewed -\n",
    "! renewed 16\n",
    "! backup\n",
    "! backup 4294967296\n",
    "! locks x\n",
    "=\n",
    "= /\n",
    "= a dir 0\n",
    "= // dir 0\n",
    "= /a/ dir 0\n",
    "= /. dir 0\n",
    "= / dir\n",
    "= / dir 0 0\n",
    "= /a file 1\n",
    "= /a file 1 1 1\n",
    "= /a link 1 1\n",
    "= /a fifo 1\n",
    "#\n",
    "#1.2\n",
    "# 1\n",
    "# 01.2\n",
    "# 1.2 \n",
    "{\"blocks\":0}\n",
    "! end",
    "! end\n! end\n",
];

#[test]
fn other_texts_are_no_lines(rt: HostRuntime) -> Result<(), Fail> {
    expect_none(&rt, rt.alloc(), &NO_ANSWERS)?;
    expect_none(&rt, rt.alloc(), &NO_OTHER_LINES)
}
