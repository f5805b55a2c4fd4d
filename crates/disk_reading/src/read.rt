// The tree that a disk stands for.
ghost use Rattle.std.specs.Prelude.{◌≡◌, ◌≤◌, ◌*◌, ◌/◌, ◌%◌, [], true, Some, IfOk};
ghost use Rattle.disk_definitions.specs.Params.{param_in};
ghost use Rattle.sector_bytes.specs.Sectors.{sectors_of};
ghost use Rattle.standing_laws.specs.Below.{all_below};
ghost use Rattle.standing_laws.specs.Soundness as sound;
ghost use Rattle.disk_reading.specs.Reading.{IsReading};
ghost use Rattle.disk_reading.specs.Seen.{store_in};
ghost use Rattle.disk_reading.specs.Tests as tests;

use crate::decoded_disk::DecodedDisk;
use crate::links::links_agree;
use crate::marks::marks_agree;
use crate::nodes::add_nodes;
use crate::owners::{blocks_agree, larges_agree};
use crate::reached::all_reached;
use disk_definitions::{Disk, Param};
use file_tree::Tree;
use frang_base::limits::{
    INODE_BLOCKS_MAX, RUN_VERSIONS_MAX, SEGMENT_BLOCKS, SEGMENT_INODES, SEGMENTS_MAX,
};
use frang_base::{NoMemory, Sector};
use std::alloc::Global;
use std::collections::BTreeMap;
use tree_definitions::Node;

// Whether no block has two owners, and none is used without one.
fn owners_agree(alloc: Global, disk: &DecodedDisk<'_>, segments: u32) -> Result<bool, NoMemory>
    requires few { segments ≤ SEGMENTS_MAX }
    requires uses { all_below (SEGMENT_BLOCKS * segments) (λ t. sound.use_agrees (store_in segments disk.now) ((store_in segments disk.now).inode (t / INODE_BLOCKS_MAX)) (t % INODE_BLOCKS_MAX)) ≡ true }
    requires marked { all_below (SEGMENT_INODES * segments) (λ i. sound.is_marked (store_in segments disk.now) (sound.large_at (store_in segments disk.now) i)) ≡ true }
    ensures { IfOk result (λ b. b ≡ tests.owners_agree segments (store_in segments disk.now)) }
{
    let blocks = blocks_agree(alloc, disk, segments)?;
    let larges = larges_agree(alloc, disk, segments)?;
    Ok(blocks && larges)
}

/// Adds the nodes of a disk to none. False exactly where the disk isn't sound.
pub(crate) fn read_sound(
    nodes: &mut BTreeMap<u64, Node>,
    alloc: Global,
    disk: &DecodedDisk<'_>,
    most: u64,
    segments: u32,
) -> Result<bool, NoMemory>
    requires few { segments ≤ SEGMENTS_MAX }
    requires some { 1 ≤ segments }
    requires none { nodes.old.entries ≡ [] }
    ensures { IfOk result (tests.IsSoundReading most segments (sectors_of disk.now) nodes.new.entries) }
{
    if !marks_agree(disk, most, segments) {
        return Ok(false);
    }
    if !owners_agree(alloc, disk, segments)? {
        return Ok(false);
    }
    if !add_nodes(nodes, alloc, disk, segments)? {
        return Ok(false);
    }
    if !links_agree(alloc, nodes, SEGMENT_INODES * segments)? {
        return Ok(false);
    }
    all_reached(alloc, nodes, SEGMENT_INODES * segments)
}

// The tree that a disk with these parameters stands for.
fn read_tree(alloc: Global, disk: &DecodedDisk<'_>, param: &Param) -> Result<Option<Tree>, NoMemory>
    requires { param_in (sectors_of disk.now 0) ≡ Some param.now }
    ensures { IfOk result (IsReading (sectors_of disk.now)) }
{
    let segments = param.segments;
    let most = RUN_VERSIONS_MAX * u64::from(param.run);
    let mut nodes = BTreeMap::new(alloc);
    if read_sound(&mut nodes, alloc, disk, most, segments)? {
        Ok(Some(Tree::of(alloc, segments, nodes)))
    } else {
        Ok(None)
    }
}

/// The tree that a disk stands for. The birth of each node is the number of its inode, the time of a file is the one that its inode has,
/// and no cell is doubtful. `None` exactly where the disk stands for no tree.
pub fn tree_read(alloc: Global, disk: &Disk) -> Result<Option<Tree>, NoMemory>
    ensures { IfOk result (IsReading (sectors_of disk.now)) }
{
    let Some(param) = param_block::decode(&disk.get(Sector(0))) else {
        return Ok(None);
    };
    let decoded = DecodedDisk::of(alloc, disk, param.segments)?;
    read_tree(alloc, &decoded, &param)
}
