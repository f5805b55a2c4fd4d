// A small block, and a change of one byte.
use frang_base::{Block, Change, NoMemory, Patch, Patches, Sector, Text};
use std::alloc::Global;

/// A block of this version whose first byte after the version is as given, and zeros after it.
pub(crate) fn small_block(version: u8, byte: u8) -> Block {
    let mut block = [0; 512];
    block[0] = version;
    block[8] = byte;
    block
}

/// A change of a sector to this version, which writes one byte.
pub(crate) fn change_of(
    alloc: Global,
    sector: u64,
    version: u64,
    byte: u8,
) -> Result<Change, NoMemory> {
    let mut patches = Patches::new(alloc);
    let bytes = Text::of(alloc, &[byte])?;
    patches.push(Patch { at: 20, bytes })?;
    Ok(Change {
        sector: Sector(sector),
        version,
        patches,
    })
}
