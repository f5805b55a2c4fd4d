// The cover of a sector that a line needs or sets.
ghost use Rattle.std.specs.Prelude.{◌≡◌, ◌≤◌, ◌/◌};
ghost use Rattle.std.specs.Option.{option_map};
ghost use Rattle.frang_base.specs.declared.limits.TheConstants.{SEGMENTS_MAX, SEGMENT_BLOCKS};
ghost use Rattle.disk_definitions.specs.CoversAtHand as covers;
ghost use Rattle.disk_definitions.specs.CoversAtHand.{cover_among};
ghost use Rattle.disk_definitions.specs.Numbered.{sector_at};

use crate::held::is_free_inode;
use crate::owners::{large_owner_among, small_owner_among};
use dir_lookup::Hand;
use frang_base::limits::{SEGMENT_BLOCKS, SEGMENT_INODES};
use frang_base::{Held, LockId, Sector};
use frang_layout::{Region, region_of};
use usable_sectors::Usable;

/// The lock that covers a sector which a line needs or sets, once it has looked at the inodes of these nodes, in that order: the segment's own; of an inode that
/// a held segment has free, that segment, else the inode's node; of a block the first of these nodes whose inode is cached and has the block, and where none has
/// it the segment of its bit. The disk has so many segments, at most 64. `None` exactly where the sector is the parameters', a log's or in no region. It looks
/// at the inodes of these nodes alone.
pub fn cover_among(hand: &Hand, segments: u32, nodes: &[u32], sector: Sector) -> Option<LockId>
    requires { segments ≤ SEGMENTS_MAX }
    ensures { result ≡ option_map (cover_among hand.now.sectors.now.entries hand.now.held.now nodes.now) (sector_at segments sector.0) }
{
    match region_of(sector, segments) {
        Some(Region::Segment(segment)) => Some(LockId::Segment(segment)),
        Some(Region::Inode(inode)) => Some(inode_cover(hand.held, inode)),
        Some(Region::Small { block, .. }) => Some(small_cover_among(hand.sectors, nodes, block)),
        Some(Region::Large { block, .. }) => Some(large_cover_among(hand.sectors, nodes, block)),
        Some(Region::Param) => None,
        Some(Region::Log { .. }) => None,
        None => None,
    }
}

fn inode_cover(held: &Held, inode: u32) -> LockId
    ensures { result ≡ covers.inode_cover held.now inode }
{
    if is_free_inode(held, inode) {
        LockId::Segment(inode / SEGMENT_INODES)
    } else {
        LockId::Node(inode)
    }
}

/// The lock that covers the sectors of a small block which a line needs or sets: the first of these nodes whose inode is cached and has the block, and where
/// none has it the segment of its bit.
pub fn small_cover_among(sectors: &Usable, nodes: &[u32], block: u32) -> LockId
    ensures { result ≡ covers.node_or_segment (covers.small_owner_among sectors.now.entries nodes.now block) (block / SEGMENT_BLOCKS) }
{
    let owner = small_owner_among(sectors, nodes, block);
    node_or_segment(owner, block / SEGMENT_BLOCKS)
}

/// The same of a large block.
pub fn large_cover_among(sectors: &Usable, nodes: &[u32], block: u32) -> LockId
    ensures { result ≡ covers.node_or_segment (covers.large_owner_among sectors.now.entries nodes.now block) block }
{
    let owner = large_owner_among(sectors, nodes, block);
    node_or_segment(owner, block)
}

// The lock of a node, or of a segment where there is none.
fn node_or_segment(inode: Option<u32>, segment: u32) -> LockId
    ensures { result ≡ covers.node_or_segment inode segment }
{
    match inode {
        Some(inode) => LockId::Node(inode),
        None => LockId::Segment(segment),
    }
}
