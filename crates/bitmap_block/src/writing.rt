// Segments as the bytes of their sectors.
ghost use Rattle.std.specs.Prelude.{◌≡◌};
ghost use Rattle.disk_definitions.specs.Bitmaps.{bitmap_bytes};

use byteorder::{ByteOrder, LittleEndian};
use frang_base::limits::SECTOR_BYTES;
use frang_base::{Bitmap, Block};

/// Makes the block the sector of this segment. What it held counts for nothing.
pub fn encode(value: &Bitmap, to: &mut Block)
    ensures { to.new ≡ bitmap_bytes value.now }
{
    *to = [0; SECTOR_BYTES];
    LittleEndian::write_u64(&mut to[..8], value.version);
    LittleEndian::write_u64(&mut to[8..16], value.inodes);
    to[16..272].copy_from_slice(&value.states);
    to[272] = u8::from(value.large);
}

/// The sector of a segment.
pub(crate) fn block_of(value: &Bitmap) -> Block
    ensures { result ≡ bitmap_bytes value.now }
{
    let mut block = [0; SECTOR_BYTES];
    encode(value, &mut block);
    block
}
