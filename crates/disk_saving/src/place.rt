// The places of a disk by their numbers, in ascending order of their sectors.
ghost use Rattle.std.specs.Prelude.{◌≡◌, ◌≤◌};
ghost use Rattle.disk_saving.specs.Places.{inode_from, large_from, log_from, place_at, place_count, segment_from, small_from};

use disk_definitions::Region;
use frang_base::limits::{
    LARGE_BLOCK_SECTORS, LOG_SECTORS, LOGS, SEGMENT_BLOCKS, SEGMENT_INODES, SEGMENTS_MAX,
    SMALL_BLOCK_SECTORS,
};

// The sectors of a log, and of all logs.
const SLOTS: u32 = LOG_SECTORS as u32;

const LOG_PLACES: u32 = LOGS as u32 * SLOTS;

// The sectors of the small blocks of a segment.
const SMALL_PLACES: u32 = SMALL_BLOCK_SECTORS * SEGMENT_BLOCKS;

/// How many places a disk of so many segments has, at most 64.
pub(crate) fn place_count(segments: u32) -> u32
    requires { segments ≤ SEGMENTS_MAX }
    ensures { result ≡ place_count segments }
{
    1 + LOG_PLACES
        + segments
        + SEGMENT_INODES * segments
        + SMALL_PLACES * segments
        + LARGE_BLOCK_SECTORS * segments
}

/// The place with this number on a disk of so many segments.
pub(crate) fn place_at(segments: u32, n: u32) -> Region
    requires { segments ≤ SEGMENTS_MAX }
    ensures { result ≡ place_at segments n }
{
    if n == 0 {
        Region::Param
    } else {
        log_from(segments, n - 1)
    }
}

// The place with this number among those of the logs and what lies behind them.
fn log_from(segments: u32, n: u32) -> Region
    requires { segments ≤ SEGMENTS_MAX }
    ensures { result ≡ log_from segments n }
{
    if n < LOG_PLACES {
        Region::Log {
            server: (n / SLOTS) as u8,
            slot: (n % SLOTS) as u8,
        }
    } else {
        segment_from(segments, n - LOG_PLACES)
    }
}

// The same of the bitmap.
fn segment_from(segments: u32, n: u32) -> Region
    requires { segments ≤ SEGMENTS_MAX }
    ensures { result ≡ segment_from segments n }
{
    if n < segments {
        Region::Segment(n)
    } else {
        inode_from(segments, n - segments)
    }
}

// The same of the inodes.
fn inode_from(segments: u32, n: u32) -> Region
    requires { segments ≤ SEGMENTS_MAX }
    ensures { result ≡ inode_from segments n }
{
    let inodes = SEGMENT_INODES * segments;
    if n < inodes {
        Region::Inode(n)
    } else {
        small_from(segments, n - inodes)
    }
}

// The same of the small blocks.
fn small_from(segments: u32, n: u32) -> Region
    requires { segments ≤ SEGMENTS_MAX }
    ensures { result ≡ small_from segments n }
{
    let places = SMALL_PLACES * segments;
    if n < places {
        Region::Small {
            block: n / SMALL_BLOCK_SECTORS,
            part: (n % SMALL_BLOCK_SECTORS) as u8,
        }
    } else {
        large_from(n - places)
    }
}

// The same of the large blocks.
fn large_from(n: u32) -> Region
    ensures { result ≡ large_from n }
{
    Region::Large {
        block: n / LARGE_BLOCK_SECTORS,
        part: (n % LARGE_BLOCK_SECTORS) as u16,
    }
}
