// A script as text.
ghost use Rattle.std.specs.Prelude.{◌≡◌, ◌∷◌, [], ◌++◌, OnOk, OnErr, replicate};
ghost use Rattle.std.specs.Fmt.{decimal};
ghost use Rattle.std.specs.List.{flat_map, join_with_byte};
ghost use Rattle.tree_definitions.specs.SaidLines.{hex_byte};
ghost use Rattle.frang_base.specs.declared.op.Op.TheVariants as op;
ghost use Rattle.frang_base.specs.declared.op.What.TheVariants.{Host, Server};
ghost use Rattle.script_definitions.specs.ScriptPrinted.{path_text, op_words, line_words, line_text, printed_from, printed};

use frang_base::{HostOp, Line, Name, NoMemory, Op, Path, Script, What};
use reply_text::{write_after_blank, write_count, write_hex, write_number, write_words};
use std::alloc::Global;

fn print_names(names: &[Name], to: &mut Vec<u8>) -> Result<(), NoMemory>
    ensures { OnOk result (to.new.items ≡ to.old.items ++ flat_map (λ n. 47 ∷ n) names.now) }
{
    for name in names {
        to.push(b'/')?;
        to.extend_from_slice(name.as_slice())?;
    }
    Ok(())
}

fn print_path(path: &Path, to: &mut Vec<u8>) -> Result<(), NoMemory>
    ensures { OnOk result (to.new.items ≡ to.old.items ++ path_text path.now) }
{
    match path.as_slice() {
        [] => {
            to.push(b'/')?;
            Ok(())
        }
        [_, ..] => print_names(path.as_slice(), to),
    }
}

// A blank, and then a path.
fn print_next_path(path: &Path, to: &mut Vec<u8>) -> Result<(), NoMemory>
    ensures { OnOk result (to.new.items ≡ to.old.items ++ 32 ∷ path_text path.now) }
{
    to.push(b' ')?;
    print_path(path, to)
}

// A word, and a number behind it.
fn print_counted(word: &[u8], n: u32, to: &mut Vec<u8>) -> Result<(), NoMemory>
    ensures { OnOk result (to.new.items ≡ to.old.items ++ (word.now ++ 32 ∷ decimal n)) }
{
    write_words(word, to)?;
    write_count(n, to)
}

// A word, and a path behind it.
fn print_at(word: &[u8], path: &Path, to: &mut Vec<u8>) -> Result<(), NoMemory>
    ensures { OnOk result (to.new.items ≡ to.old.items ++ (word.now ++ 32 ∷ path_text path.now)) }
{
    write_words(word, to)?;
    print_next_path(path, to)
}

// A blank and a number, twice.
fn print_counts(m: u32, n: u32, to: &mut Vec<u8>) -> Result<(), NoMemory>
    ensures { OnOk result (to.new.items ≡ to.old.items ++ (32 ∷ (decimal m ++ 32 ∷ decimal n))) }
{
    write_count(m, to)?;
    write_count(n, to)
}

// A blank, and a byte by two digits.
fn print_byte(byte: u8, to: &mut Vec<u8>) -> Result<(), NoMemory>
    ensures { OnOk result (to.new.items ≡ to.old.items ++ 32 ∷ hex_byte byte) }
{
    to.push(b' ')?;
    write_hex(&[byte], to)
}

// A blank and an offset, and a blank and a text.
fn print_bytes_at(off: u32, bytes: &[u8], to: &mut Vec<u8>) -> Result<(), NoMemory>
    ensures { OnOk result (to.new.items ≡ to.old.items ++ (32 ∷ (decimal off ++ 32 ∷ bytes.now))) }
{
    write_count(off, to)?;
    write_after_blank(bytes, to)
}

// Blanks, and between them an offset, a length and a byte.
fn print_filled(off: u32, len: u32, byte: u8, to: &mut Vec<u8>) -> Result<(), NoMemory>
    ensures { OnOk result (to.new.items
        ≡ to.old.items ++ (32 ∷ (decimal off ++ 32 ∷ (decimal len ++ 32 ∷ hex_byte byte)))) }
{
    print_counts(off, len, to)?;
    print_byte(byte, to)
}

// A word, and two paths behind it.
fn print_paths(word: &[u8], path: &Path, other: &Path, to: &mut Vec<u8>) -> Result<(), NoMemory>
    ensures { OnOk result (to.new.items
        ≡ to.old.items ++ (word.now ++ 32 ∷ (path_text path.now ++ 32 ∷ path_text other.now))) }
{
    print_at(word, path, to)?;
    print_next_path(other, to)
}

fn print_symlink(path: &Path, target: &[u8], to: &mut Vec<u8>) -> Result<(), NoMemory>
    ensures { OnOk result (to.new.items
        ≡ to.old.items ++ join_with_byte 32 (op_words (op.Symlink path.now target.now))) }
{
    print_at(b"symlink", path, to)?;
    write_after_blank(target, to)
}

fn print_write(path: &Path, off: u32, bytes: &[u8], to: &mut Vec<u8>) -> Result<(), NoMemory>
    ensures { OnOk result (to.new.items
        ≡ to.old.items ++ join_with_byte 32 (op_words (op.Write path.now off bytes.now))) }
{
    print_at(b"write", path, to)?;
    print_bytes_at(off, bytes, to)
}

fn print_fill(path: &Path, off: u32, len: u32, byte: u8, to: &mut Vec<u8>) -> Result<(), NoMemory>
    ensures { OnOk result (to.new.items
        ≡ to.old.items ++ join_with_byte 32 (op_words (op.Fill path.now off len byte))) }
{
    print_at(b"fill", path, to)?;
    print_filled(off, len, byte, to)
}

fn print_truncate(path: &Path, len: u32, to: &mut Vec<u8>) -> Result<(), NoMemory>
    ensures { OnOk result (to.new.items
        ≡ to.old.items ++ join_with_byte 32 (op_words (op.Truncate path.now len))) }
{
    print_at(b"truncate", path, to)?;
    write_count(len, to)
}

fn print_read(path: &Path, off: u32, len: u32, to: &mut Vec<u8>) -> Result<(), NoMemory>
    ensures { OnOk result (to.new.items
        ≡ to.old.items ++ join_with_byte 32 (op_words (op.Read path.now off len))) }
{
    print_at(b"read", path, to)?;
    print_counts(off, len, to)
}

// What a server is asked.
fn print_op(op: &Op, to: &mut Vec<u8>) -> Result<(), NoMemory>
    ensures { OnOk result (to.new.items ≡ to.old.items ++ join_with_byte 32 (op_words op.now)) }
{
    match op {
        Op::Create { path } => print_at(b"create", path, to),
        Op::Mkdir { path } => print_at(b"mkdir", path, to),
        Op::Unlink { path } => print_at(b"unlink", path, to),
        Op::Rmdir { path } => print_at(b"rmdir", path, to),
        Op::Stat { path } => print_at(b"stat", path, to),
        Op::List { path } => print_at(b"list", path, to),
        Op::Readlink { path } => print_at(b"readlink", path, to),
        Op::Time { path } => print_at(b"time", path, to),
        Op::Link { path, to: other } => print_paths(b"link", path, other, to),
        Op::Rename { path, to: other } => print_paths(b"rename", path, other, to),
        Op::Symlink { path, target } => print_symlink(path, target.as_slice(), to),
        Op::Write { path, off, bytes } => print_write(path, *off, bytes.as_slice(), to),
        Op::Fill {
            path,
            off,
            len,
            byte,
        } => print_fill(path, *off, *len, *byte, to),
        Op::Truncate { path, len } => print_truncate(path, *len, to),
        Op::Read { path, off, len } => print_read(path, *off, *len, to),
        Op::Sync => write_words(b"sync", to),
        Op::Mount => write_words(b"mount", to),
        Op::Unmount => write_words(b"unmount", to),
        Op::Crash => write_words(b"crash", to),
        Op::CrashAt { k } => print_counted(b"crash", *k, to),
        Op::CutAt { k } => print_counted(b"cut", *k, to),
        Op::Stall => write_words(b"stall", to),
    }
}

fn print_host_op(op: &HostOp, to: &mut Vec<u8>) -> Result<(), NoMemory>
    ensures { OnOk result (to.new.items ≡ to.old.items ++ line_text 255 (Host op.now)) }
{
    match op {
        HostOp::Barrier => write_words(b"barrier", to),
        HostOp::Tick { n } => print_counted(b"tick", *n, to),
        HostOp::Halt => write_words(b"halt", to),
    }
}

// A line, without its line feed.
fn print_what(line: &Line, to: &mut Vec<u8>) -> Result<(), NoMemory>
    ensures { OnOk result (to.new.items ≡ to.old.items ++ line_text line.now.who.0 line.now.what) }
{
    match &line.what {
        What::Host(op) => print_host_op(op, to),
        What::Server(op) => {
            write_number(u64::from(line.who.0), to)?;
            to.push(b' ')?;
            print_op(op, to)
        }
    }
}

// So many line feeds.
fn print_empty(count: u32, to: &mut Vec<u8>) -> Result<(), NoMemory>
    ensures { OnOk result (to.new.items ≡ to.old.items ++ replicate count 10) }
{
    for _printed in 0..count {
        to.push(b'\n')?;
    }
    Ok(())
}

// Lines from a number on.
fn print_lines(lines: &[Line], to: &mut Vec<u8>) -> Result<(), NoMemory>
    ensures { OnOk result (to.new.items ≡ to.old.items ++ printed_from 1 lines.now) }
{
    let mut next = 1u64;
    for line in lines {
        let number = u64::from(line.number);
        print_empty(number.saturating_sub(next) as u32, to)?;
        print_what(line, to)?;
        to.push(b'\n')?;
        next = number + 1;
    }
    Ok(())
}

/// Adds the text of a script at the end of `to`: each line with single spaces and a line feed, and empty lines, so that the numbers
/// of the lines stay. After `NoMemory` nothing was added.
pub fn print_script(alloc: Global, script: &Script, to: &mut Vec<u8>) -> Result<(), NoMemory>
    ensures ok { OnOk result (to.new.items ≡ to.old.items ++ printed script.now) }
    ensures err { OnErr result (to.new.items ≡ to.old.items) }
{
    let mut text = Vec::new(alloc);
    print_lines(script.as_slice(), &mut text)?;
    to.extend_from_slice(&text)?;
    Ok(())
}
