// Sectors of directories from their bytes.
ghost use Rattle.std.specs.Prelude.{◌≡◌, ◌≤◌, length, IfSome, IsTrue};
ghost use Rattle.disk_definitions.specs.Directories.{directory_fields, directory_fits, directory_in, entries_in, entry_fields};

use crate::grammar::fits;
use crate::writing::block_of;
use crate::{PLACE_BYTES, PLACES};
use byteorder::{ByteOrder, LittleEndian};
use disk_definitions::{DirEntry, DirSector};
use frang_base::Block;
use frang_base::limits::{KIND_FREE, NAME_BYTES_MAX, VERSION_BYTES};

/// The sector of a directory that the block is. `None` exactly where it is none.
pub fn decode(from: &Block) -> Option<DirSector>
    ensures value { result ≡ directory_in from.now }
    ensures fits { IfSome result (λ x. IsTrue (directory_fits x)) }
{
    let value = fields(from);
    if !fits(&value) {
        return None;
    }
    (block_of(&value) == *from).then_some(value)
}

/// What stands at the places of a sector's fields, whether or not the block is a sector of a directory.
pub fn fields(from: &Block) -> DirSector
    ensures { result ≡ directory_fields from.now }
{
    DirSector {
        version: LittleEndian::read_u64(from),
        entries: entries(&from[VERSION_BYTES..]),
    }
}

fn entries(from: &[u8]) -> [DirEntry; PLACES]
    requires { length from.now ≡ 504 }
    ensures { result ≡ entries_in PLACES from.now }
{
    let mut entries = [FREE_PLACE; PLACES];
    for place in 0..PLACES {
        entries[place] = entry(&from[place * PLACE_BYTES..]);
    }
    entries
}

const FREE_PLACE: DirEntry = DirEntry {
    inode: 0,
    len: 0,
    kind: KIND_FREE,
    name: [0; NAME_BYTES_MAX],
};

// What stands at the places of an entry's fields.
fn entry(from: &[u8]) -> DirEntry
    requires { PLACE_BYTES ≤ length from.now }
    ensures { result ≡ entry_fields from.now }
{
    let mut name = [0; NAME_BYTES_MAX];
    name.copy_from_slice(&from[6..70]);
    DirEntry {
        inode: LittleEndian::read_u32(from),
        len: from[4],
        kind: from[5],
        name,
    }
}
