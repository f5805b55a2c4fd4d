// Disks by their sectors.
use crate::bytes::lay;
use crate::rows::{is_row, split};
use crate::words::sector;
use disk_definitions::Disk;
use frang_base::{NoMemory, Sector};

/// Lays pieces over a disk, by a text whose rows have one or more parts, parted by `;`: a sector, and the pieces that are laid over what stands
/// there. What isn't read is refused, and so is want of memory.
pub fn lay_on(disk: &mut Disk, text: &str) -> Result<(), NoMemory> {
    for line in text.lines() {
        if is_row(line) {
            lay_line(disk, line)?;
        }
    }
    Ok(())
}

fn lay_line(disk: &mut Disk, line: &str) -> Result<(), NoMemory> {
    for part in line.split(';') {
        let (word, pieces) = split(part.trim(), " ");
        if !word.is_empty() {
            lay_sector(disk, word, pieces)?;
        }
    }
    Ok(())
}

fn lay_sector(disk: &mut Disk, word: &str, pieces: &str) -> Result<(), NoMemory> {
    let Some(number) = sector(word) else {
        return Err(NoMemory);
    };
    let mut block = disk.get(Sector(number));
    lay(&mut block, pieces)?;
    disk.set(Sector(number), block)
}
