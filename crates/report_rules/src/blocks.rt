// Whether the state of a small block agrees with its use, and its sectors fit.
ghost use Rattle.std.specs.Prelude.{◌≡◌, ◌≤◌, ◌<◌, ◌*◌, ◌||◌, not, is_some};
ghost use Rattle.sector_bytes.specs.Sectors.{sectors_of};
ghost use Rattle.disk_definitions.specs.declared.region.Region.TheVariants as region;
ghost use Rattle.disk_definitions.specs.Regions.{sector_of};
ghost use Rattle.disk_definitions.specs.Store.{directory_at};
ghost use Rattle.standing_laws.specs.Below.{all_below};
ghost use Rattle.disk_reading.specs.Marks.{flag_at};
ghost use Rattle.disk_reading.specs.Seen.{store_in, use_of_state};
ghost use Rattle.report_definitions.specs.View.{is_recent_at};
ghost use Rattle.report_definitions.specs.Rules as rules;
ghost use Rattle.report_rules.specs.Seen.{stored, view_in};
ghost use Rattle.report_rules.specs.Tables.{AreTables};

use crate::tables::Tables;
use bitmap_block::BlockState;
use byteorder::{ByteOrder, LittleEndian};
use disk_reading::DecodedDisk;
use disk_reading::grammar::parts_fit;
use disk_reading::marks::{has_no_entries, is_unused, is_used_for};
use disk_reading::sectors::{self, use_of, used_inode};
use frang_base::limits::{
    INODE_BLOCKS_MAX, KIND_FREE, SEGMENT_BLOCKS, SEGMENTS_MAX, SMALL_BLOCK_SECTORS,
};
use frang_layout::{Region, sector_of};

// The kind of an inode, that of a free one where it isn't in use.
fn kind_at(disk: &DecodedDisk<'_>, segments: u32, i: u32) -> u8
    requires { segments ≤ SEGMENTS_MAX }
    ensures { result ≡ rules.kind_at ((store_in segments disk.now).inode i) }
{
    match used_inode(disk, segments, i) {
        Some(inode) => inode.kind,
        None => KIND_FREE,
    }
}

// Whether a block with a first user is marked as used for what that is, and another one as unused.
fn is_use_fine(disk: &DecodedDisk<'_>, segments: u32, tables: &Tables, block: u32) -> bool
    requires few { segments ≤ SEGMENTS_MAX }
    requires tables { AreTables segments (store_in segments disk.now) tables.now }
    requires within { block < SEGMENT_BLOCKS * segments }
    ensures { result ≡ rules.is_use_fine (stored segments (store_in segments disk.now)) (flag_at tables.now.reached) block }
{
    let state = use_of(disk, segments, block);
    match tables.small.first(block as usize) {
        Some(t) => is_used_for(kind_at(disk, segments, t / INODE_BLOCKS_MAX), state),
        None => is_unused(state),
    }
}

// Whether the version of a part of a block isn't too great, where the part is in the grammar of directories.
fn is_version_fine(disk: &DecodedDisk<'_>, most: u64, block: u32, part: u8) -> bool
    ensures { result ≡ (not (is_some (directory_at (sectors_of disk.now) block part)) || is_recent_at most (sectors_of disk.now) (sector_of (region.Small block part))) }
{
    let bytes = disk.get(sector_of(&Region::Small { block, part }));
    !sectors::directory_at(disk, block, part).is_some() || LittleEndian::read_u64(&bytes) <= most
}

#[tactic(auto, using(standing_laws::proofs::Bounded::all_more))]
fn versions_fine(disk: &DecodedDisk<'_>, most: u64, block: u32) -> bool
    ensures { result ≡ all_below SMALL_BLOCK_SECTORS (λ p. not (is_some (directory_at (sectors_of disk.now) block p)) || is_recent_at most (sectors_of disk.now) (sector_of (region.Small block p))) }
{
    let mut all = true;
    for p in 0..SMALL_BLOCK_SECTORS as u8 {
        all = all && is_version_fine(disk, most, block, p);
    }
    all
}

// Whether the sectors of a block of this state fit.
#[tactic(auto, unfolding(disk_reading::specs::Fits::part_fits))]
fn are_parts_fine(
    disk: &DecodedDisk<'_>,
    most: u64,
    segments: u32,
    block: u32,
    state: BlockState,
) -> bool
    requires { segments ≤ SEGMENTS_MAX }
    ensures { result ≡ rules.are_parts_fine (view_in most segments disk.now) block (use_of_state state) }
{
    match state {
        BlockState::Unused => true,
        BlockState::FileBytes => true,
        BlockState::FormerDirectory => {
            parts_fit(disk, most, block) && has_no_entries(disk, segments, block)
        }
        BlockState::Directory => versions_fine(disk, most, block),
    }
}

/// Whether the state of a small block agrees with its use, and its sectors fit.
pub fn is_block_fine(
    disk: &DecodedDisk<'_>,
    most: u64,
    segments: u32,
    tables: &Tables,
    block: u32,
) -> bool
    requires few { segments ≤ SEGMENTS_MAX }
    requires tables { AreTables segments (store_in segments disk.now) tables.now }
    requires within { block < SEGMENT_BLOCKS * segments }
    ensures { result ≡ rules.is_block_fine (view_in most segments disk.now) (flag_at tables.now.reached) block }
{
    let state = use_of(disk, segments, block);
    is_use_fine(disk, segments, tables, block) && are_parts_fine(disk, most, segments, block, state)
}
