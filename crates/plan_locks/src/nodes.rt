// The nodes at whose inodes a plan looked.
ghost use Rattle.std.specs.Prelude.{◌≡◌, ◌≤◌, IfOk, OnOk};
ghost use Rattle.frang_base.specs.declared.limits.TheConstants.{SEGMENTS_MAX};
ghost use Rattle.disk_definitions.specs.LookedAt.{nodes_in, with_node};
ghost use Rattle.disk_definitions.specs.FoundLocks.{from_end};
ghost use Rattle.lock_sets.specs.Seen.{numbers};

use frang_base::{NoMemory, Sector};
use frang_layout::{Region, region_of};
use std::alloc::Global;

/// The nodes whose inodes are among these sectors, in order, on a disk of so many segments, at most 64. Its one refusal is want of memory.
pub fn nodes_in(alloc: Global, segments: u32, looked: &[Sector]) -> Result<Vec<u32>, NoMemory>
    requires { segments ≤ SEGMENTS_MAX }
    ensures { IfOk result (λ nodes. nodes.items ≡ nodes_in segments (numbers looked.now)) }
{
    let mut nodes = Vec::new(alloc);
    for sector in looked {
        add_node(&mut nodes, segments, *sector)?;
    }
    Ok(nodes)
}

// The node of an inode's sector, behind the others.
fn add_node(nodes: &mut Vec<u32>, segments: u32, sector: Sector) -> Result<(), NoMemory>
    requires { segments ≤ SEGMENTS_MAX }
    ensures { OnOk result (nodes.new.items ≡ with_node segments nodes.old.items sector.0) }
{
    match region_of(sector, segments) {
        Some(Region::Inode(inode)) => {
            nodes.push(inode)?;
            Ok(())
        }
        Some(Region::Param) => Ok(()),
        Some(Region::Log { .. }) => Ok(()),
        Some(Region::Segment(_)) => Ok(()),
        Some(Region::Small { .. }) => Ok(()),
        Some(Region::Large { .. }) => Ok(()),
        None => Ok(()),
    }
}

/// The node that lies so many before the last one.
pub(crate) fn from_end(nodes: &[u32], back: usize) -> u32
    ensures { result ≡ from_end nodes.now back }
{
    match nodes.get(nodes.len().saturating_sub(1).saturating_sub(back)) {
        Some(node) => *node,
        None => 0,
    }
}
