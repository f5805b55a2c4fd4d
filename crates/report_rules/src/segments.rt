// The rules of segments of the bitmap.
ghost use Rattle.std.specs.Prelude.{◌≡◌, ◌≤◌, ◌<◌, ◌+◌, ◌*◌, ◌&&◌};
ghost use Rattle.sector_bytes.specs.Sectors.{sectors_of};
ghost use Rattle.standing_laws.specs.Below.{all_below};
ghost use Rattle.disk_reading.specs.Fits as fits;
ghost use Rattle.disk_reading.specs.Marks.{flag_at};
ghost use Rattle.disk_reading.specs.Seen.{store_in};
ghost use Rattle.report_definitions.specs.Rules as rules;
ghost use Rattle.report_rules.specs.Seen.{stored, view_in};
ghost use Rattle.report_rules.specs.Tables.{AreTables};

use crate::blocks::is_block_fine;
use crate::flags::Flags;
use crate::tables::Tables;
use disk_reading::DecodedDisk;
use disk_reading::grammar::{inode_fits, segment_fits};
use disk_reading::sectors::{bit_of, large_bit, used_inode};
use frang_base::limits::{SEGMENT_BLOCKS, SEGMENT_INODES, SEGMENTS_MAX};

fn is_bit_fine(disk: &DecodedDisk<'_>, segments: u32, reached: &Flags, i: u32) -> bool
    requires { segments ≤ SEGMENTS_MAX }
    ensures { result ≡ rules.is_bit_fine (stored segments (store_in segments disk.now)) (flag_at reached.now) i }
{
    let bit = bit_of(disk, segments, i);
    if reached.has(i as usize) {
        bit
    } else {
        used_inode(disk, segments, i).is_none() && !bit
    }
}

/// Whether the inodes of a segment that are reached have their bits, and the others are free and have none.
#[tactic(auto, using(standing_laws::proofs::Bounded::all_more))]
pub fn are_bits_fine(disk: &DecodedDisk<'_>, segments: u32, reached: &Flags, k: u32) -> bool
    requires few { segments ≤ SEGMENTS_MAX }
    requires within { k < segments }
    ensures { result ≡ rules.are_bits_fine (stored segments (store_in segments disk.now)) (flag_at reached.now) k }
{
    let mut all = true;
    for j in 0..SEGMENT_INODES {
        all = all && is_bit_fine(disk, segments, reached, SEGMENT_INODES * k + j);
    }
    all
}

#[tactic(auto, using(standing_laws::proofs::Bounded::all_more))]
fn inodes_fit(disk: &DecodedDisk<'_>, most: u64, k: u32) -> bool
    requires { k < SEGMENTS_MAX }
    ensures { result ≡ all_below SEGMENT_INODES (λ j. fits.inode_fits most (sectors_of disk.now) (SEGMENT_INODES * k + j)) }
{
    let mut all = true;
    for j in 0..SEGMENT_INODES {
        all = all && inode_fits(disk, most, SEGMENT_INODES * k + j);
    }
    all
}

// Whether the sector of a segment and its inodes fit.
fn sectors_fit(disk: &DecodedDisk<'_>, most: u64, k: u32) -> bool
    requires { k < SEGMENTS_MAX }
    ensures { result ≡ (fits.segment_fits most (sectors_of disk.now) k && all_below SEGMENT_INODES (λ j. fits.inode_fits most (sectors_of disk.now) (SEGMENT_INODES * k + j))) }
{
    segment_fits(disk, most, k) && inodes_fit(disk, most, k)
}

#[tactic(auto, using(standing_laws::proofs::Bounded::all_more))]
fn blocks_fine(disk: &DecodedDisk<'_>, most: u64, segments: u32, tables: &Tables, k: u32) -> bool
    requires few { segments ≤ SEGMENTS_MAX }
    requires tables { AreTables segments (store_in segments disk.now) tables.now }
    requires within { k < segments }
    ensures { result ≡ all_below SEGMENT_BLOCKS (λ j. rules.is_block_fine (view_in most segments disk.now) (flag_at tables.now.reached) (SEGMENT_BLOCKS * k + j)) }
{
    let mut all = true;
    for j in 0..SEGMENT_BLOCKS {
        all = all && is_block_fine(disk, most, segments, tables, SEGMENT_BLOCKS * k + j);
    }
    all
}

/// Whether the states of the small blocks of a segment agree with their use, and its sectors fit.
pub fn is_segment_fine(
    disk: &DecodedDisk<'_>,
    most: u64,
    segments: u32,
    tables: &Tables,
    k: u32,
) -> bool
    requires few { segments ≤ SEGMENTS_MAX }
    requires tables { AreTables segments (store_in segments disk.now) tables.now }
    requires within { k < segments }
    ensures { result ≡ rules.is_segment_fine (view_in most segments disk.now) (flag_at tables.now.reached) k }
{
    sectors_fit(disk, most, k) && blocks_fine(disk, most, segments, tables, k)
}

/// Whether the large block of a segment is marked exactly where an inode that is reached has it.
pub fn is_mark_fine(disk: &DecodedDisk<'_>, segments: u32, tables: &Tables, k: u32) -> bool
    requires few { segments ≤ SEGMENTS_MAX }
    requires tables { AreTables segments (store_in segments disk.now) tables.now }
    requires within { k < segments }
    ensures { result ≡ rules.is_mark_fine (stored segments (store_in segments disk.now)) (flag_at tables.now.reached) k }
{
    let marked = large_bit(disk, segments, k);
    if tables.large.first(k as usize).is_some() {
        marked
    } else {
        !marked
    }
}
