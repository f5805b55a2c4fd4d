// Small blocks that are cached as zero.
ghost use Rattle.std.specs.Prelude.{◌≡◌};
ghost use Rattle.disk_definitions.specs.Regions.{sector_of};
ghost use Rattle.disk_definitions.specs.declared.region.Region.TheVariants as region;
ghost use Rattle.disk_definitions.specs.Written.{is_zero_at_hand, is_zeroed};

use frang_base::limits::SMALL_BLOCK_SECTORS;
use frang_layout::{Region, sector_of};
use sector_bytes::is_zero_block;
use usable_sectors::Usable;

/// Whether all eight sectors of a small block are cached, and hold zeros.
pub fn is_zeroed(sectors: &Usable, block: u32) -> bool
    ensures { result ≡ is_zeroed sectors.now.entries block }
{
    for part in 0..SMALL_BLOCK_SECTORS as u8 {
        let zero = is_zero_part(sectors, block, part);
        if !zero {
            return false;
        }
    }
    true
}

// Whether the sector is cached, and holds zeros.
fn is_zero_part(sectors: &Usable, block: u32, part: u8) -> bool
    ensures { result ≡ is_zero_at_hand sectors.now.entries (sector_of (region.Small block part)) }
{
    match sectors.get(sector_of(&Region::Small { block, part })) {
        Some(bytes) => is_zero_block(bytes),
        None => false,
    }
}
