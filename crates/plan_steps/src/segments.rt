// Whether the segments are held that a node needs when it goes.
ghost use Rattle.std.specs.Prelude.{◌≡◌, ◌-◌, ◌/◌, ◌==◌, ◌∷◌, [], if◌then◌else◌, map, slice_index};
ghost use Rattle.disk_definitions.specs.Plans.{Finish};
ghost use Rattle.dir_lookup.specs.Looked.{Adds};
ghost use Rattle.frang_base.specs.declared.limits.TheConstants.{SEGMENT_BLOCKS};
ghost use Rattle.tree_definitions.specs.Numbers.{below};
ghost use Rattle.disk_definitions.specs.Store.{stored};
ghost use Rattle.disk_definitions.specs.NamePlans as plans;
ghost use Rattle.dir_lookup.specs.Stored.{IsUsed};
ghost use Rattle.plan_steps.specs.Looking.{Looks, looked_over};
ghost use Rattle.plan_steps.specs.Rooms.{LooksOver, missing_of, needed};

use crate::nodes::is_last;
use dir_lookup::{Hand, Looked, Need, NumberedInode};
use disk_definitions::Inode;
use frang_base::limits::{SEGMENT_BLOCKS, SEGMENT_INODES};
use frang_base::{Held, Sector};
use frang_layout::{Region, sector_of};

/// That the segments are held which a node needs when it loses a link: with its last one that of the inode, of each small block, and of
/// the large block. `Need` names the sector of the first that isn't; those before it come to `looked`.
pub fn segments_needed(hand: &Hand, node: &NumberedInode, looked: &mut Looked) -> Result<(), Need>
    requires { IsUsed node.now.inode }
    ensures over { LooksOver hand.now (plans.fewer_segments node.now.number (stored node.now.inode)) result }
    ensures looks { (finish : Finish) → Looks hand.now.sectors.now.entries hand.now.held.now looked.old looked.new (plans.finish_over (plans.fewer_segments node.now.number (stored node.now.inode)) finish) }
{
    if is_last(&node.inode) {
        segments_of_node(hand.held, node, looked)
    } else {
        Ok(())
    }
}

// That the segments of a node are held.
fn segments_of_node(held: &Held, node: &NumberedInode, looked: &mut Looked) -> Result<(), Need>
    requires { IsUsed node.now.inode }
    ensures needs { missing_of result ≡ needed held.now (plans.segments_of node.now.number (stored node.now.inode)) }
    ensures looks { Adds looked.old looked.new (looked_over held.now (plans.segments_of node.now.number (stored node.now.inode))) }
{
    segment_held(held, node.number / SEGMENT_INODES, looked)?;
    segments_of_blocks(held, &node.inode, looked)?;
    segment_of_large(held, &node.inode, looked)
}

// That the segments of the small blocks are held.
fn segments_of_blocks(held: &Held, inode: &Inode, looked: &mut Looked) -> Result<(), Need>
    requires { IsUsed inode.now }
    ensures needs { missing_of result ≡ needed held.now (map (λ n. slice_index inode.now.small n / SEGMENT_BLOCKS) (below inode.now.blocks)) }
    ensures looks { Adds looked.old looked.new (looked_over held.now (map (λ n. slice_index inode.now.small n / SEGMENT_BLOCKS) (below inode.now.blocks))) }
{
    for n in 0..usize::from(inode.blocks) {
        segment_held(held, inode.small[n] / SEGMENT_BLOCKS, looked)?;
    }
    Ok(())
}

// That the segment of the large block is held, where there is one.
fn segment_of_large(held: &Held, inode: &Inode, looked: &mut Looked) -> Result<(), Need>
    ensures needs { missing_of result ≡ needed held.now (if inode.now.large == 0 then [] else (inode.now.large - 1) ∷ []) }
    ensures looks { Adds looked.old looked.new (looked_over held.now (if inode.now.large == 0 then [] else (inode.now.large - 1) ∷ [])) }
{
    let large = inode.large;
    if large == 0 {
        return Ok(());
    }
    segment_held(held, large - 1, looked)
}

/// That segment `k` is held, which comes to `looked` then. `Need` names its sector where it isn't.
pub fn segment_held(held: &Held, k: u32, looked: &mut Looked) -> Result<(), Need>
    ensures needs { missing_of result ≡ needed held.now (k ∷ []) }
    ensures looks { Adds looked.old looked.new (looked_over held.now (k ∷ [])) }
{
    match held.get(k) {
        Some(_) => {
            looked.add(sector_of(&Region::Segment(k)));
            Ok(())
        }
        None => Err(Need(sector_of(&Region::Segment(k)))),
    }
}
