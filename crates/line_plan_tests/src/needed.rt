// What is told of the locks that a line needs, on a disk of two segments.
use dir_lookup::Hand;
use frang_base::{LockId, Mode, NoMemory, Sector};
use line_plan::LineEnd;
use lock_sets::LockSet;
use plan_locks::{locks_of_clear, locks_of_finish};
use std::alloc::Global;
use std::fmt::Write;

const DISK_SEGMENTS: u32 = 2;

/// The locks of a line that looked at these sectors and ends so, a sole one with a `!`; before them the block that has to be cleared first.
pub(crate) fn locks_told(
    alloc: Global,
    hand: &Hand,
    looked: &[Sector],
    end: &LineEnd,
) -> Result<String, NoMemory> {
    match end {
        LineEnd::Done(outcome) => {
            let (reply, edits) = (&outcome.reply, &outcome.edits);
            let set = locks_of_finish(alloc, hand, DISK_SEGMENTS, looked, reply, edits)?;
            set_told(alloc, &set)
        }
        LineEnd::Clear { block, over } => {
            let set = locks_of_clear(alloc, DISK_SEGMENTS, looked, over, *block)?;
            clear_told(alloc, *block, &set)
        }
        LineEnd::Need(_) | LineEnd::Segments => Ok(String::new(alloc)),
    }
}

fn clear_told(alloc: Global, block: u32, set: &LockSet) -> Result<String, NoMemory> {
    let mut text = String::new(alloc);
    write!(text, "clear {block}: ")?;
    add_set(&mut text, set)?;
    Ok(text)
}

fn set_told(alloc: Global, set: &LockSet) -> Result<String, NoMemory> {
    let mut text = String::new(alloc);
    add_set(&mut text, set)?;
    Ok(text)
}

/// Adds the locks of a set, a sole one with a `!`.
pub(crate) fn add_set(text: &mut String, set: &LockSet) -> Result<(), NoMemory> {
    for need in set.as_slice() {
        add_lock(text, need.0, need.1)?;
    }
    Ok(())
}

fn add_lock(text: &mut String, lock: LockId, mode: Mode) -> Result<(), NoMemory> {
    let sole = match mode {
        Mode::Shared => "",
        Mode::Sole => "!",
    };
    match lock {
        LockId::Log(log) => write!(text, "l{log}{sole} ")?,
        LockId::Segment(segment) => write!(text, "s{segment}{sole} ")?,
        LockId::Node(inode) => write!(text, "n{inode}{sole} ")?,
    }
    Ok(())
}
