// Edits in words, and how plans end.
use crate::digits::add_digits;
use crate::replies::add_reply;
use disk_definitions::{DirEntry, Inode};
use frang_base::limits::RUN_TICKS_END;
use frang_base::{Block, NoMemory};
use plan_steps::{Edit, Outcome, Stop};
use std::alloc::Global;
use std::fmt::Write;

/// How a plan ends: its reply with its edits, or what stops it. Its one refusal is want of memory.
pub fn ended_told(alloc: Global, ended: &Result<Outcome, Stop>) -> Result<String, NoMemory> {
    match ended {
        Ok(outcome) => outcome_told(alloc, outcome),
        Err(stop) => stop_told(alloc, stop),
    }
}

/// A reply with the edits that make it. Its one refusal is want of memory.
pub fn outcome_told(alloc: Global, outcome: &Outcome) -> Result<String, NoMemory> {
    let mut text = String::new(alloc);
    add_outcome(alloc, &mut text, outcome)?;
    Ok(text)
}

fn add_outcome(alloc: Global, text: &mut String, outcome: &Outcome) -> Result<(), NoMemory> {
    add_reply(alloc, text, &outcome.reply)?;
    for edit in outcome.edits.as_slice() {
        text.push(' ')?;
        add_edit(text, edit)?;
    }
    Ok(())
}

fn stop_told(alloc: Global, stop: &Stop) -> Result<String, NoMemory> {
    let mut text = String::new(alloc);
    add_stop(alloc, &mut text, stop)?;
    Ok(text)
}

// What ends a plan before it is done.
fn add_stop(alloc: Global, text: &mut String, stop: &Stop) -> Result<(), NoMemory> {
    match stop {
        Stop::Need(sector) => write!(text, "needs {}", sector.0)?,
        Stop::Segments => write!(text, "segments")?,
        Stop::Clear { block } => write!(text, "clear {block}")?,
        Stop::Refused(reply) => add_reply(alloc, text, reply)?,
        Stop::NoMemory => return Err(NoMemory),
    }
    Ok(())
}

// An edit by a letter and a number: an inode, its bit, the use of a small block, a place of a directory, a large block, or the bytes of a
// sector of a small or a large block.
fn add_edit(text: &mut String, edit: &Edit) -> Result<(), NoMemory> {
    match edit {
        Edit::Inode {
            number,
            inode,
            dated,
        } => add_inode(text, *number, inode, *dated)?,
        Edit::Bit { number, used } => write!(text, "b{number}:{used}")?,
        Edit::Use { block, state } => write!(text, "u{block}:{state:?}")?,
        Edit::Place {
            block,
            place,
            entry,
        } => add_place(text, *block, *place, entry)?,
        Edit::Large { block, used } => write!(text, "g{block}:{used}")?,
        Edit::Bytes { block, part, bytes } => {
            add_bytes(text, 's', *block, u32::from(*part), bytes)?
        }
        Edit::LargeBytes { block, part, bytes } => {
            add_bytes(text, 'l', *block, u32::from(*part), bytes)?
        }
    }
    Ok(())
}

// An inode by its kind, links, size and blocks. Where it is dated, its first and its last block, its large block plus 1 and its time follow.
fn add_inode(
    text: &mut String,
    number: u32,
    inode: &Option<Inode>,
    dated: bool,
) -> Result<(), NoMemory> {
    let Some(x) = inode else {
        write!(text, "i{number}:-")?;
        return Ok(());
    };
    let (kind, links, size, blocks) = (x.kind, x.links, x.size, x.blocks);
    write!(text, "i{number}:{kind},{links},{size},{blocks}")?;
    if dated {
        add_date(text, x)?;
    }
    Ok(())
}

fn add_date(text: &mut String, inode: &Inode) -> Result<(), NoMemory> {
    let (first, last, large) = (inode.small[0], inode.small[15], inode.large);
    let (run, tick) = (inode.when / RUN_TICKS_END, inode.when % RUN_TICKS_END);
    write!(text, ",{first},{last},{large} at {run}.{tick}")?;
    Ok(())
}

// A place of a directory by the first byte of its name, its inode and its kind.
fn add_place(
    text: &mut String,
    block: u32,
    place: u32,
    entry: &Option<DirEntry>,
) -> Result<(), NoMemory> {
    let Some(entry) = entry else {
        write!(text, "p{block}.{place}:-")?;
        return Ok(());
    };
    let (name, inode, kind) = (char::from(entry.name[0]), entry.inode, entry.kind);
    write!(text, "p{block}.{place}:{name},{inode},{kind}")?;
    Ok(())
}

// The bytes of a sector of a block, behind the letter of its kind.
fn add_bytes(
    text: &mut String,
    kind: char,
    block: u32,
    part: u32,
    bytes: &Block,
) -> Result<(), NoMemory> {
    write!(text, "{kind}{block}.{part}:")?;
    add_digits(text, bytes)
}
