// Sectors of directories as bytes.
ghost use Rattle.std.specs.Prelude.{◌≡◌, length};
ghost use Rattle.std.specs.List.{flat_map};
ghost use Rattle.disk_definitions.specs.Directories.{directory_bytes, entry_bytes};

use crate::{PLACE_BYTES, PLACES};
use byteorder::{ByteOrder, LittleEndian};
use disk_definitions::{DirEntry, DirSector};
use frang_base::Block;
use frang_base::limits::{SECTOR_BYTES, VERSION_BYTES};

/// Makes the block this sector of a directory. Any value has bytes; those of one in the grammar read back.
pub fn encode(value: &DirSector, to: &mut Block)
    ensures { to.new ≡ directory_bytes value.now }
{
    *to = [0; SECTOR_BYTES];
    LittleEndian::write_u64(&mut to[..VERSION_BYTES], value.version);
    write_entries(&value.entries, &mut to[VERSION_BYTES..]);
}

/// The block of a sector of a directory.
pub(crate) fn block_of(value: &DirSector) -> Block
    ensures { result ≡ directory_bytes value.now }
{
    let mut block = [0; SECTOR_BYTES];
    encode(value, &mut block);
    block
}

// The entries one after the other.
fn write_entries(entries: &[DirEntry; PLACES], to: &mut [u8])
    requires { length to.old ≡ 504 }
    ensures { to.new ≡ flat_map entry_bytes entries.now }
{
    for (place, entry) in entries.iter().enumerate() {
        to[place * PLACE_BYTES..(place + 1) * PLACE_BYTES].copy_from_slice(&entry_block(entry));
    }
}

// The fields of an entry, and two zeros.
fn entry_block(entry: &DirEntry) -> [u8; PLACE_BYTES]
    ensures { result ≡ entry_bytes entry.now }
{
    let mut bytes = [0; PLACE_BYTES];
    LittleEndian::write_u32(&mut bytes[..4], entry.inode);
    bytes[4] = entry.len;
    bytes[5] = entry.kind;
    bytes[6..70].copy_from_slice(&entry.name);
    bytes
}
