// What gives the blocks of cached sectors.
ghost use Rattle.std.specs.Prelude.{◌≡◌};
ghost use Rattle.std.specs.Option.{option_copied};
ghost use Rattle.sector_bytes.specs.SectorMaps.{value_at};
ghost use Rattle.disk_definitions.specs.Written.{Cached};

use frang_base::{Block, Sector};
use meta_version::Sectors;

/// Cached sectors with their blocks: all that are cached, or those of them that may be used. Contracts see the entries of them, a sector's number with its block.
pub trait CachedBlocks {
    ghost cached: { Self → Cached };

    /// The block of a sector. `None` exactly where the sector isn't among them.
    fn block(&self, sector: Sector) -> Option<&Block>
        ensures { option_copied result ≡ value_at (cached self.now) sector.0 };
}

impl CachedBlocks for Sectors {
    ghost cached = { λ sectors. sectors.entries };

    fn block(&self, sector: Sector) -> Option<&Block> {
        self.get(sector)
    }
}
