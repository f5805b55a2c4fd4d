// Locks and sectors by short words: `s0!` is the lock of segment 0, sole, `n5` that of node 5, shared.
use frang_base::{LockId, Mode, NoMemory, Sector};
use frang_layout::{Region, region_of};
use std::fmt::Write;
use test_tables::sector;

/// The segments of each disk.
pub(crate) const DISK_SEGMENTS: u32 = 2;

/// The lock of a word, with its mode. It refuses what is no such word.
pub(crate) fn lock_of(word: &str) -> Result<(LockId, Mode), NoMemory> {
    let (name, mode) = match word.strip_suffix("!") {
        Some(name) => (name, Mode::Sole),
        None => (word, Mode::Shared),
    };
    match lock_named(name) {
        Some(lock) => Ok((lock, mode)),
        None => Err(NoMemory),
    }
}

fn lock_named(name: &str) -> Option<LockId> {
    if let Some(segment) = name.strip_prefix("s") {
        return Some(LockId::Segment(segment.parse::<u32>().ok()?));
    }
    let node = name.strip_prefix("n")?;
    Some(LockId::Node(node.parse::<u32>().ok()?))
}

/// The sector of a word of the tables of tests. It refuses what is no such word.
pub(crate) fn sector_of(word: &str) -> Result<Sector, NoMemory> {
    match sector(word) {
        Some(sector) => Ok(Sector(sector)),
        None => Err(NoMemory),
    }
}

/// Adds the word of a lock in a mode.
pub(crate) fn add_lock(text: &mut String, lock: LockId, mode: Mode) -> Result<(), NoMemory> {
    match lock {
        LockId::Log(log) => write!(text, " l{log}")?,
        LockId::Segment(segment) => write!(text, " s{segment}")?,
        LockId::Node(inode) => write!(text, " n{inode}")?,
    }
    if let Mode::Sole = mode {
        text.push('!')?;
    }
    Ok(())
}

/// Adds the word of a sector.
pub(crate) fn add_sector(text: &mut String, sector: Sector) -> Result<(), NoMemory> {
    match region_of(sector, DISK_SEGMENTS) {
        Some(Region::Segment(number)) => write!(text, " k{number}")?,
        Some(Region::Inode(number)) => write!(text, " i{number}")?,
        Some(Region::Small { block, part }) => write!(text, " s{block}.{part}")?,
        _ => write!(text, " {}", sector.0)?,
    }
    Ok(())
}
