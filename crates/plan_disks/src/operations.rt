// The operations that tests ask, by lines.
ghost use Rattle.std.specs.Prelude.{IfOk};
ghost use Rattle.disk_definitions.specs.Allowed.{AreNames, IsAllowed};
ghost use Rattle.op_dir.specs.Names.{IsOfNames};
ghost use Rattle.op_data.specs.Bytes.{IsOfBytes};
ghost use Rattle.op_look.specs.Looks.{IsLook};

use crate::paths::{path_of, target_of};
use frang_base::{NoMemory, Op, Path, Text};
use std::alloc::Global;
use test_tables::{byte, split};

/// The operation on names of a line such as `create /a`, `symlink /a target` and `rename /a /b`. It refuses want of memory, and what is no such line.
pub fn names_op(alloc: Global, line: &str) -> Result<Op, NoMemory>
    ensures names { IfOk result IsOfNames }
    ensures allowed { IfOk result IsAllowed }
{
    let (verb, words) = split(line, " ");
    let (path, words) = split(words, " ");
    let path = path_of(alloc, path)?;
    if words.is_empty() {
        of_a_name(verb, path)
    } else if verb == "symlink" {
        let target = target_of(alloc, words)?;
        Ok(Op::Symlink { path, target })
    } else {
        of_two_names(verb, path, path_of(alloc, words)?)
    }
}

fn of_a_name(verb: &str, path: Path) -> Result<Op, NoMemory>
    requires { AreNames path }
    ensures names { IfOk result IsOfNames }
    ensures allowed { IfOk result IsAllowed }
{
    match verb {
        "create" => Ok(Op::Create { path }),
        "mkdir" => Ok(Op::Mkdir { path }),
        "unlink" => Ok(Op::Unlink { path }),
        "rmdir" => Ok(Op::Rmdir { path }),
        _ => Err(NoMemory),
    }
}

fn of_two_names(verb: &str, path: Path, to: Path) -> Result<Op, NoMemory>
    requires path { AreNames path }
    requires to { AreNames to }
    ensures names { IfOk result IsOfNames }
    ensures allowed { IfOk result IsAllowed }
{
    match verb {
        "link" => Ok(Op::Link { path, to }),
        "rename" => Ok(Op::Rename { path, to }),
        _ => Err(NoMemory),
    }
}

/// The operation on file bytes of a line such as `write /a 5 text`, `fill /a 5 100 2e`, `truncate /a 5` and `read /a 5 100`. A number that lacks is 0, and
/// `write /a 5` writes no bytes. It refuses want of memory, and what is no such line.
pub fn bytes_op(alloc: Global, line: &str) -> Result<Op, NoMemory>
    ensures { IfOk result IsOfBytes }
{
    let (verb, words) = split(line, " ");
    let (path, words) = split(words, " ");
    let (off, words) = split(words, " ");
    let path = path_of(alloc, path)?;
    let off = small(off)?;
    if verb == "write" {
        let bytes = Text::of(alloc, words.as_bytes())?;
        return Ok(Op::Write { path, off, bytes });
    }
    of_numbers(verb, path, off, words)
}

fn of_numbers(verb: &str, path: Path, off: u32, words: &str) -> Result<Op, NoMemory>
    ensures { IfOk result IsOfBytes }
{
    let (len, digits) = split(words, " ");
    let len = small(len)?;
    let Some(byte) = byte(digits) else {
        return Err(NoMemory);
    };
    match verb {
        "fill" => Ok(Op::Fill {
            path,
            off,
            len,
            byte,
        }),
        "truncate" if words.is_empty() => Ok(Op::Truncate { path, len: off }),
        "read" if digits.is_empty() => Ok(Op::Read { path, off, len }),
        _ => Err(NoMemory),
    }
}

// The number by its decimal digits, 0 where there is no word.
fn small(word: &str) -> Result<u32, NoMemory> {
    if word.is_empty() {
        return Ok(0);
    }
    match word.parse::<u32>() {
        Ok(number) => Ok(number),
        Err(_) => Err(NoMemory),
    }
}

/// The operation that looks of a line such as `stat /a`. It refuses want of memory, and what is no such line.
pub fn look_op(alloc: Global, line: &str) -> Result<Op, NoMemory>
    ensures { IfOk result IsLook }
{
    let (verb, path) = split(line, " ");
    let path = path_of(alloc, path)?;
    match verb {
        "stat" => Ok(Op::Stat { path }),
        "list" => Ok(Op::List { path }),
        "readlink" => Ok(Op::Readlink { path }),
        "time" => Ok(Op::Time { path }),
        _ => Err(NoMemory),
    }
}
