// Blocks and changes by a few bytes.
use frang_base::{Block, Change, NoMemory, Patch, Patches, Sector, Text};
use std::alloc::Global;

/// These bytes, and zeros after them.
pub(crate) fn block_of(bytes: [u8; 12]) -> Block {
    let mut block = [0; 512];
    block[..12].copy_from_slice(&bytes);
    block
}

/// A block of this version whose first byte after the version is as given.
pub(crate) fn small_block(version: u8, byte: u8) -> Block {
    block_of([version, 0, 0, 0, 0, 0, 0, 0, byte, 0, 0, 0])
}

/// A change of a sector to this version, with these patches.
pub(crate) fn change_of(
    alloc: Global,
    sector: u64,
    version: u64,
    patches: &[(u16, &[u8])],
) -> Result<Change, NoMemory> {
    let mut all = Patches::new(alloc);
    for (at, bytes) in patches {
        let bytes = Text::of(alloc, bytes)?;
        all.push(Patch { at: *at, bytes })?;
    }
    Ok(Change {
        sector: Sector(sector),
        version,
        patches: all,
    })
}
