// Whether the sectors of a disk are in their grammar, with versions up to the most.
ghost use Rattle.std.specs.Prelude.{◌≡◌, ◌≤◌, ◌*◌, ◌<◌, ◌^◌};
ghost use Rattle.sector_bytes.specs.Sectors.{sectors_of};
ghost use Rattle.standing_laws.specs.Below.{all_below};
ghost use Rattle.disk_reading.specs.Seen.{store_in, use_of_state};
ghost use Rattle.disk_reading.specs.Fits as fits;

use crate::decoded_disk::DecodedDisk;
use crate::sectors::use_of;
use bitmap_block::BlockState;
use byteorder::{ByteOrder, LittleEndian};
use frang_base::limits::{SEGMENT_BLOCKS, SEGMENT_INODES, SEGMENTS_MAX, SMALL_BLOCK_SECTORS};
use frang_layout::{Region, sector_of};

/// Whether a segment of the bitmap is in its grammar, with a version up to `most`.
#[tactic(auto, unfolding(crate::specs::Fits::segment_fits))]
pub fn segment_fits(disk: &DecodedDisk<'_>, most: u64, k: u32) -> bool
    ensures { result ≡ fits.segment_fits most (sectors_of disk.now) k }
{
    let block = disk.get(sector_of(&Region::Segment(k)));
    bitmap_block::decode(&block).is_some() && LittleEndian::read_u64(&block) <= most
}

/// Whether an inode is in its grammar, with a version up to `most`.
#[tactic(auto, unfolding(crate::specs::Fits::inode_fits))]
pub fn inode_fits(disk: &DecodedDisk<'_>, most: u64, i: u32) -> bool
    ensures { result ≡ fits.inode_fits most (sectors_of disk.now) i }
{
    let block = disk.get(sector_of(&Region::Inode(i)));
    inode_block::decode(&block).is_some() && LittleEndian::read_u64(&block) <= most
}

#[tactic(auto, unfolding(crate::specs::Fits::part_fits))]
fn part_fits(disk: &DecodedDisk<'_>, most: u64, block: u32, part: u8) -> bool
    ensures { result ≡ fits.part_fits most (sectors_of disk.now) block part }
{
    let bytes = disk.get(sector_of(&Region::Small { block, part }));
    dir_block::decode(&bytes).is_some() && LittleEndian::read_u64(&bytes) <= most
}

/// Whether the parts of a block are sectors of a directory, with versions up to `most`.
#[tactic(auto, using(standing_laws::proofs::Bounded::all_more))]
pub fn parts_fit(disk: &DecodedDisk<'_>, most: u64, block: u32) -> bool
    ensures { result ≡ all_below SMALL_BLOCK_SECTORS (fits.part_fits most (sectors_of disk.now) block) }
{
    let mut all = true;
    for p in 0..SMALL_BLOCK_SECTORS as u8 {
        all = all && part_fits(disk, most, block, p);
    }
    all
}

fn block_fits(disk: &DecodedDisk<'_>, most: u64, state: BlockState, block: u32) -> bool
    ensures { result ≡ fits.block_fits most (sectors_of disk.now) (use_of_state state) block }
{
    match state {
        BlockState::Unused => true,
        BlockState::FileBytes => true,
        BlockState::FormerDirectory => parts_fit(disk, most, block),
        BlockState::Directory => parts_fit(disk, most, block),
    }
}

#[tactic(auto, using(standing_laws::proofs::Bounded::all_more))]
fn segments_fit(disk: &DecodedDisk<'_>, most: u64, segments: u32) -> bool
    requires { segments ≤ SEGMENTS_MAX }
    ensures { result ≡ all_below segments (fits.segment_fits most (sectors_of disk.now)) }
{
    let mut all = true;
    for k in 0..segments {
        all = all && segment_fits(disk, most, k);
    }
    all
}

#[tactic(auto, using(standing_laws::proofs::Bounded::all_more))]
fn inodes_fit(disk: &DecodedDisk<'_>, most: u64, segments: u32) -> bool
    requires { segments ≤ SEGMENTS_MAX }
    ensures { result ≡ all_below (SEGMENT_INODES * segments) (fits.inode_fits most (sectors_of disk.now)) }
{
    let mut all = true;
    for i in 0..SEGMENT_INODES * segments {
        all = all && inode_fits(disk, most, i);
    }
    all
}

#[tactic(auto, using(standing_laws::proofs::Bounded::all_more))]
fn blocks_fit(disk: &DecodedDisk<'_>, most: u64, segments: u32) -> bool
    requires { segments ≤ SEGMENTS_MAX }
    ensures { result ≡ all_below (SEGMENT_BLOCKS * segments) (λ k. fits.block_fits most (sectors_of disk.now) ((store_in segments disk.now).use_of k) k) }
{
    let mut all = true;
    for block in 0..SEGMENT_BLOCKS * segments {
        all = all && block_fits(disk, most, use_of(disk, segments, block), block);
    }
    all
}

/// Whether every segment, every inode, and every sector of a block that is or was a directory's is in its grammar, with a version up
/// to `most`.
pub(crate) fn sectors_fit(disk: &DecodedDisk<'_>, most: u64, segments: u32) -> bool
    requires { segments ≤ SEGMENTS_MAX }
    ensures { result ≡ fits.sectors_fit most segments (store_in segments disk.now) (sectors_of disk.now) }
{
    segments_fit(disk, most, segments)
        && inodes_fit(disk, most, segments)
        && blocks_fit(disk, most, segments)
}
