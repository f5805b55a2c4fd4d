//! A sector of a directory as bytes, and back, and where a name stands in it. The contracts promise the bytes of the definition, that
//! a block is read exactly where it is the sector of some entries, that the patches between two sectors are the longest runs in which
//! they differ, and that the first entry of a name is found; the laws, that reading and writing undo each other. It stands on the
//! definitions of sectors and on the patches between blocks.
#![tactic(auto)]

mod differences;
mod grammar;
mod laws;
mod names;
mod reading;
mod writing;

pub use differences::patches;
pub use disk_definitions::{DirEntry, DirSector};
pub use laws::{patches_make_the_new_sector, what_is_written_reads_back};
pub use names::find;
pub use reading::{decode, fields};
pub use writing::encode;

// The places for entries in a sector, as a length of lists.
const PLACES: usize = frang_base::limits::SECTOR_ENTRIES as usize;

// The bytes of a place.
const PLACE_BYTES: usize = 72;
