// Clearing a block.
ghost use Rattle.std.specs.Prelude.{◌≡◌, ◌≤◌, ◌+◌, fold, length};
ghost use Rattle.frang_base.specs.declared.limits.TheConstants.{SMALL_BLOCK_SECTORS};
ghost use Rattle.disk_definitions.specs.Regions.{sector_of};
ghost use Rattle.disk_definitions.specs.declared.region.Region.TheVariants as region;
ghost use Rattle.clerk_cache.specs.Dropping.{numbers_of};
ghost use Rattle.core_definitions.specs.LineEffects.{cleared_at, zeroed};
ghost use Rattle.core_definitions.specs.Trees.{block_sectors};
ghost use Rattle.server_core.specs.States.{KeepsRoomBut};

use crate::pending::put_in;
use crate::server::Server;
use clerk_cache::Cache;
use frang_base::limits::{SEGMENT_BLOCKS, SMALL_BLOCK_SECTORS};
use frang_base::{LockId, Sector};
use frang_layout::{Region, sector_of};

// A sector of a small block.
fn sector_in(block: u32, part: u8) -> Sector
    ensures { result.0 ≡ sector_of (region.Small block part) }
{
    sector_of(&Region::Small { block, part })
}

// The sectors of a small block.
fn block_sectors(block: u32) -> [Sector; SMALL_BLOCK_SECTORS as usize]
    ensures { numbers_of result ≡ block_sectors block }
{
    [
        sector_in(block, 0),
        sector_in(block, 1),
        sector_in(block, 2),
        sector_in(block, 3),
        sector_in(block, 4),
        sector_in(block, 5),
        sector_in(block, 6),
        sector_in(block, 7),
    ]
}

// Sectors are cached as zeros, with this mark and under the lock of this segment. There is room for them.
fn set_zeros(cache: &mut Cache, sectors: &[Sector], mark: u64, segment: u32)
    requires { length sectors.now ≤ cache.old.spare }
    ensures entries { cache.new.entries ≡ fold (zeroed mark segment) cache.old.entries (numbers_of sectors.now) }
    ensures staying { cache.new.staying ≡ cache.old.staying }
    ensures flying { cache.new.flying ≡ cache.old.flying }
    ensures spare { cache.old.spare ≤ cache.new.spare + length sectors.now }
{
    for sector in sectors {
        cache.set_zeros(*sector, mark, LockId::Segment(segment));
    }
}

impl Server {
    /// Clears a small block for its line: eight writes of zeros are wanted, with the last number of its log as their mark. They are metadata, under the block's segment,
    /// whatever was cached of them, and pending until they are acknowledged. There is room for them.
    pub fn clear(&mut self, block: u32)
        requires cached { SMALL_BLOCK_SECTORS ≤ self.old.spare }
        requires pending { SMALL_BLOCK_SECTORS ≤ self.old.zeros }
        ensures server { self.new.server ≡ cleared_at block self.old.server }
        ensures flying { self.new.flying ≡ self.old.flying }
        ensures room { KeepsRoomBut (record { spare = SMALL_BLOCK_SECTORS; sectors = 0; names = 0; zeros = SMALL_BLOCK_SECTORS }) self.old self.new }
    {
        let sectors = block_sectors(block);
        let mark = self.last_number();
        set_zeros(&mut self.cache, &sectors, mark, block / SEGMENT_BLOCKS);
        put_in(&mut self.pending, &sectors);
    }
}
