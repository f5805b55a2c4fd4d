// The blocks of the sectors at hand.
ghost use Rattle.std.specs.Prelude.{◌≡◌};
ghost use Rattle.std.specs.Option.{option_copied, option_map};
ghost use Rattle.sector_bytes.specs.SectorMaps.{value_at};
ghost use Rattle.disk_definitions.specs.Bitmaps.{bitmap_bytes};
ghost use Rattle.disk_definitions.specs.Held.{AreSegments};
ghost use Rattle.disk_definitions.specs.Written.{segment_sectors};
ghost use Rattle.edit_writing.specs.Sectors.{at_hand, block_or_zeros};

use bitmap_block::encode;
use dir_lookup::Hand;
use frang_base::limits::{SECTOR_BYTES, SEGMENTS_MAX};
use frang_base::{Bitmap, Block, Held, Sector};
use frang_layout::BITMAPS_FROM;
use sector_bytes::zero_block;
use usable_sectors::Usable;

/// The block of a sector: that of a held segment by its bitmap, else the cached one, else zeros.
pub(crate) fn block_at_hand(hand: &Hand, sector: Sector) -> Block
    requires { AreSegments hand.now.held.now }
    ensures { result ≡ at_hand hand.now sector.0 }
{
    match segment_at(hand.held, sector) {
        Some(bitmap) => segment_block(bitmap),
        None => cached_block(hand.sectors, sector),
    }
}

// The bitmap of the held segment whose sector this is.
fn segment_at(held: &Held, sector: Sector) -> Option<&Bitmap>
    requires { AreSegments held.now }
    ensures { option_map bitmap_bytes (option_copied result) ≡ value_at (segment_sectors held.now) sector.0 }
{
    if sector.0 < BITMAPS_FROM {
        return None;
    }
    let segment = sector.0 - BITMAPS_FROM;
    if segment >= u64::from(SEGMENTS_MAX) {
        return None;
    }
    held.get(segment as u32)
}

fn segment_block(bitmap: &Bitmap) -> Block
    ensures { result ≡ bitmap_bytes bitmap.now }
{
    let mut block = [0; SECTOR_BYTES];
    encode(bitmap, &mut block);
    block
}

// The cached block, or zeros.
fn cached_block(sectors: &Usable, sector: Sector) -> Block
    ensures { result ≡ block_or_zeros (value_at sectors.now.entries sector.0) }
{
    match sectors.get(sector) {
        Some(block) => *block,
        None => zero_block(),
    }
}
