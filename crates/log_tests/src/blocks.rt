// Blocks of a log, field by field.
use frang_base::limits::{LOG_BODY_BYTES, LOG_SECTORS, SECTOR_BYTES};
use frang_base::{Block, NoMemory};

/// What follows the first byte of a change: the rest of its sector's number, version 1, one patch, at byte 8.
pub(crate) static CHANGE_HEAD: [u8; 19] = [0, 0, 0, 0, 0, 0, 0, 1, 0, 0, 0, 0, 0, 0, 0, 1, 0, 8, 0];

// Puts bytes into a block from a place on, as many as there is room for.
fn lay(block: &mut Block, place: usize, bytes: &[u8]) {
    for (there, byte) in block.iter_mut().skip(place).zip(bytes) {
        *there = *byte;
    }
}

/// A part of a record as an older program wrote it, with these bytes in its body, as many as there is room for.
pub(crate) fn part_block(number: u64, op: u64, part: u16, parts: u16, bytes: &[u8]) -> Block {
    let used = bytes.len().min(LOG_BODY_BYTES) as u16;
    let mut block = [0; SECTOR_BYTES];
    lay(&mut block, 0, &number.to_le_bytes());
    lay(&mut block, 8, &op.to_le_bytes());
    lay(&mut block, 16, &part.to_le_bytes());
    lay(&mut block, 18, &parts.to_le_bytes());
    lay(&mut block, 20, &used.to_le_bytes());
    lay(&mut block, 24, bytes);
    block
}

/// A packed sector with these bytes in its body, as many as there is room for, of which the first frame begins at this place.
pub(crate) fn packed_block(number: u64, begins: u16, bytes: &[u8]) -> Block {
    part_block(number, 0, begins, 65_535, bytes)
}

/// The empty sector of this number.
pub(crate) fn empty_block(number: u64) -> Block {
    if number < LOG_SECTORS {
        [0; SECTOR_BYTES]
    } else {
        part_block(number, 0, 0, 0, &[])
    }
}

/// Adds bytes at the end.
pub(crate) fn add(bytes: &mut Vec<u8>, more: &[u8]) -> Result<(), NoMemory> {
    bytes.extend_from_slice(more)?;
    Ok(())
}

/// Puts a block into a slot, where there is one.
pub(crate) fn put(slots: &mut [Block], slot: usize, block: Block) {
    if let Some(place) = slots.get_mut(slot) {
        *place = block;
    }
}

/// The slot of a number.
pub(crate) fn slot_of(number: u64) -> usize {
    (number % LOG_SECTORS) as usize
}
