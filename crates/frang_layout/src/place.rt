// From sectors to places in regions, and back.
ghost use Rattle.std.specs.Prelude.{◌≡◌, ◌≤◌, ◌<◌, ◌+◌, ◌*◌, ◌/◌, ◌%◌, ◌^◌};
ghost use Rattle.disk_definitions.specs.Regions.{free_cover, is_among, large_at, log_at, region_of, sector_of};
ghost use Rattle.disk_definitions.specs.declared.region.Region.TheVariants as region;

use crate::limits::{
    BITMAPS_FROM, INODES_FROM, LARGE_BLOCKS_FROM, LARGE_STRIDE, LOG_STRIDE, LOGS_FROM,
    SMALL_BLOCKS_FROM,
};
use disk_definitions::Region;
use frang_base::limits::{
    LARGE_BLOCK_SECTORS, LOG_SECTORS, LOGS, SEGMENT_BLOCKS, SEGMENT_INODES, SEGMENTS_MAX,
    SMALL_BLOCK_SECTORS,
};
use frang_base::{LockId, Sector};

/// The place of a sector on a disk of so many segments, at most 64. `None` exactly where the sector is in no region.
pub fn region_of(sector: Sector, segments: u32) -> Option<Region>
    requires { segments ≤ SEGMENTS_MAX }
    ensures { result ≡ region_of segments sector.0 }
{
    let s = sector.0;
    let count = u64::from(segments);
    let inodes = u64::from(SEGMENT_INODES) * count;
    let small_sectors = u64::from(SMALL_BLOCK_SECTORS * SEGMENT_BLOCKS) * count;
    if s == 0 {
        Some(Region::Param)
    } else if is_among(LOGS_FROM, LOGS as u64 * LOG_STRIDE, s) {
        log_at(s - LOGS_FROM)
    } else if is_among(BITMAPS_FROM, count, s) {
        Some(Region::Segment((s - BITMAPS_FROM) as u32))
    } else if is_among(INODES_FROM, inodes, s) {
        Some(Region::Inode((s - INODES_FROM) as u32))
    } else if is_among(SMALL_BLOCKS_FROM, small_sectors, s) {
        Some(small_at(s - SMALL_BLOCKS_FROM))
    } else if s >= LARGE_BLOCKS_FROM {
        large_at(segments, s - LARGE_BLOCKS_FROM)
    } else {
        None
    }
}

/// The sector of a place, in range or not.
pub fn sector_of(region: &Region) -> Sector
    ensures { result.0 ≡ sector_of region.now }
{
    Sector(match region {
        Region::Param => 0,
        Region::Log { server, slot } => {
            LOGS_FROM + u64::from(*server) * LOG_STRIDE + u64::from(*slot)
        }
        Region::Segment(k) => BITMAPS_FROM + u64::from(*k),
        Region::Inode(i) => INODES_FROM + u64::from(*i),
        Region::Small { block, part } => {
            SMALL_BLOCKS_FROM
                + u64::from(*block) * u64::from(SMALL_BLOCK_SECTORS)
                + u64::from(*part)
        }
        Region::Large { block, part } => {
            LARGE_BLOCKS_FROM + u64::from(*block) * LARGE_STRIDE + u64::from(*part)
        }
    })
}

/// The lock that covers a sector while nobody uses it: the segment that has its bit. `None` for the parameters and the logs.
pub fn free_cover(region: &Region) -> Option<LockId>
    ensures { result ≡ free_cover region.now }
{
    match region {
        Region::Param | Region::Log { .. } => None,
        Region::Segment(k) => Some(LockId::Segment(*k)),
        Region::Inode(i) => Some(LockId::Segment(i / SEGMENT_INODES)),
        Region::Small { block, .. } => Some(LockId::Segment(block / SEGMENT_BLOCKS)),
        Region::Large { block, .. } => Some(LockId::Segment(*block)),
    }
}

// Whether the sector stands among so many from a first one on.
fn is_among(first: u64, count: u64, sector: u64) -> bool
    requires { first + count < 2 ^ 64 }
    ensures { result ≡ is_among first count sector }
{
    first <= sector && sector < first + count
}

// The place in the logs, so many sectors after their first.
fn log_at(n: u64) -> Option<Region>
    ensures { result ≡ log_at n }
{
    let server = n / LOG_STRIDE;
    let slot = n % LOG_STRIDE;
    if server < LOGS as u64 && slot < LOG_SECTORS {
        Some(Region::Log {
            server: server as u8,
            slot: slot as u8,
        })
    } else {
        None
    }
}

// The place in the small blocks, so many sectors after their first.
fn small_at(n: u64) -> Region
    requires { n < 2 ^ 32 }
    ensures { result ≡ region.Small (n / SMALL_BLOCK_SECTORS) (n % SMALL_BLOCK_SECTORS) }
{
    Region::Small {
        block: (n / u64::from(SMALL_BLOCK_SECTORS)) as u32,
        part: (n % u64::from(SMALL_BLOCK_SECTORS)) as u8,
    }
}

// The place in the large blocks of so many segments, so many sectors after their first.
fn large_at(segments: u32, n: u64) -> Option<Region>
    ensures { result ≡ large_at segments n }
{
    let block = n / LARGE_STRIDE;
    let part = n % LARGE_STRIDE;
    if block < u64::from(segments) && part < u64::from(LARGE_BLOCK_SECTORS) {
        Some(Region::Large {
            block: block as u32,
            part: part as u16,
        })
    } else {
        None
    }
}
