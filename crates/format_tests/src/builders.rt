// A fresh disk, and blocks with another byte.
use disk_definitions::Disk;
use frang_base::{Block, NoMemory};
use std::alloc::Global;
use test_tables::lay_on;

/// The parameter sector of a fresh disk of 16 segments.
pub const FRESH_PARAMETERS: &str = "0:'FRANGPAR 8:020000001000000001";

// A disk of 16 segments in its first run, with the root alone. Its sectors stand from the last to the first.
const FRESH: &str = "
i0 0:01 8:02 10:01
k0 0:01 8:01
0 0:'FRANGPAR 8:020000001000000001
";

/// The block with another byte at a place.
pub fn with(block: &Block, place: usize, byte: u8) -> Block {
    let mut other = *block;
    if let Some(there) = other.get_mut(place) {
        *there = byte;
    }
    other
}

/// A fresh disk of 16 segments.
pub fn fresh_disk(alloc: Global) -> Result<Disk, NoMemory> {
    let mut disk = Disk::new(alloc);
    lay_on(&mut disk, FRESH)?;
    Ok(disk)
}
