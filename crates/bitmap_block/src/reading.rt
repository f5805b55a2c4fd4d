// Segments from the bytes of their sectors.
ghost use Rattle.std.specs.Prelude.{◌≡◌};
ghost use Rattle.disk_definitions.specs.Bitmaps.{bitmap_fields, bitmap_in};

use crate::writing::block_of;
use byteorder::{ByteOrder, LittleEndian};
use frang_base::{Bitmap, Block};

/// The segment whose sector the block is. `None` exactly where it is the sector of none.
pub fn decode(from: &Block) -> Option<Bitmap>
    ensures { result ≡ bitmap_in from.now }
{
    let value = fields(from);
    (block_of(&value) == *from).then_some(value)
}

/// What stands at the places of a segment's fields, whether or not the block is a segment.
pub fn fields(from: &Block) -> Bitmap
    ensures { result ≡ bitmap_fields from.now }
{
    let mut states = [0; 256];
    states.copy_from_slice(&from[16..272]);
    Bitmap {
        version: LittleEndian::read_u64(from),
        inodes: LittleEndian::read_u64(&from[8..]),
        states,
        large: from[272] == 1,
    }
}
