// The locks that a plan needs.
ghost use Rattle.std.specs.Prelude.{◌≡◌, ◌≤◌, ◌/◌, ◌∷◌, [], IfOk, OnOk};
ghost use Rattle.frang_base.specs.declared.limits.TheConstants.{SEGMENT_BLOCKS, SEGMENTS_MAX};
ghost use Rattle.set_definitions.specs.Sets.{joined_all};
ghost use Rattle.plan_steps.specs.Edits.{edits_of};
ghost use Rattle.disk_definitions.specs.LookedAt.{nodes_in};
ghost use Rattle.disk_definitions.specs.FoundLocks.{clear_locks, clear_soles, finish_locks, from_end, makes_node, nodes_behind, owns_at_hand};
ghost use Rattle.plan_locks.specs.Needs.{ClearIsNeeded, FinishIsNeeded, MovesAreSole};
ghost use Rattle.lock_sets.specs.Seen.{numbers};

use crate::edits::{join_edits, join_full, join_nodes};
use crate::nodes::{from_end, nodes_in};
use dir_lookup::Hand;
use frang_base::limits::{SEGMENT_BLOCKS, SEGMENT_INODES};
use frang_base::{LockId, Mode, NoMemory, Op, Reply, Sector};
use lock_sets::LockSet;
use plan_steps::Edit;
use std::alloc::Global;

/// The locks of a finished line that is answered so and makes these edits, once it has looked at these sectors, links followed: each node at whose inode it
/// looked is needed, and sole what it writes: nodes, the segments of bits, and every held segment where an allocation found nothing. Over a disk that stands for
/// a tree they are the locks of its plan, and both locks of each sector that the edits move are among them, sole. Sectors of file bytes may be among those that were
/// looked at, or be left out. The disk has at most 64 segments. Its one refusal is want of memory.
pub fn locks_of_finish(
    alloc: Global,
    hand: &Hand,
    segments: u32,
    looked: &[Sector],
    reply: &Reply,
    edits: &[Edit],
) -> Result<LockSet, NoMemory>
    requires { segments ≤ SEGMENTS_MAX }
    ensures is { IfOk result (λ set. set ≡ joined_all [] (finish_locks (owns_at_hand hand.now.sectors.now.entries) hand.now.held.now (nodes_in segments (numbers looked.now)) reply.now (edits_of edits.now))) }
    ensures needed { IfOk result (FinishIsNeeded hand.now segments (numbers looked.now) reply.now (edits_of edits.now)) }
    ensures moves { IfOk result (MovesAreSole hand.now segments (numbers looked.now) reply.now (edits_of edits.now)) }
{
    finish_set(alloc, hand, segments, looked, reply, edits)
}

#[tactic(auto, using(crate::proofs::Joined::joined_two, crate::proofs::Joined::joined_three))]
fn finish_set(
    alloc: Global,
    hand: &Hand,
    segments: u32,
    looked: &[Sector],
    reply: &Reply,
    edits: &[Edit],
) -> Result<LockSet, NoMemory>
    requires { segments ≤ SEGMENTS_MAX }
    ensures { IfOk result (λ set. set ≡ joined_all [] (finish_locks (owns_at_hand hand.now.sectors.now.entries) hand.now.held.now (nodes_in segments (numbers looked.now)) reply.now (edits_of edits.now))) }
{
    let nodes = nodes_in(alloc, segments, looked)?;
    let mut set = LockSet::new(alloc);
    join_nodes(&mut set, &nodes)?;
    join_edits(&mut set, hand.sectors, &nodes, edits)?;
    join_full(&mut set, hand.held, reply)?;
    Ok(set)
}

/// The locks of a line that has a small block cleared, once it has looked at these sectors, links followed, and its walks have come to this operation over paths
/// without links. Over a disk that stands for a tree they are the locks of its plan. The disk has at most 64 segments. Its one refusal is want of memory.
pub fn locks_of_clear(
    alloc: Global,
    segments: u32,
    looked: &[Sector],
    over: &Op,
    block: u32,
) -> Result<LockSet, NoMemory>
    requires { segments ≤ SEGMENTS_MAX }
    ensures is { IfOk result (λ set. set ≡ joined_all [] (clear_locks over.now (nodes_in segments (numbers looked.now)) block)) }
    ensures needed { IfOk result (ClearIsNeeded segments (numbers looked.now) over.now block) }
{
    clear_set(alloc, segments, looked, over, block)
}

#[tactic(auto, using(crate::proofs::Joined::joined_two))]
fn clear_set(
    alloc: Global,
    segments: u32,
    looked: &[Sector],
    over: &Op,
    block: u32,
) -> Result<LockSet, NoMemory>
    requires { segments ≤ SEGMENTS_MAX }
    ensures { IfOk result (λ set. set ≡ joined_all [] (clear_locks over.now (nodes_in segments (numbers looked.now)) block)) }
{
    let nodes = nodes_in(alloc, segments, looked)?;
    let mut set = LockSet::new(alloc);
    join_nodes(&mut set, &nodes)?;
    let other = from_end(&nodes, nodes_behind(over));
    let last = from_end(&nodes, 0);
    join_soles(&mut set, other, last, makes_node(over), block)?;
    Ok(set)
}

// What is held alone while a block is cleared joins a set: two nodes, and the segments of the block and of a new node.
fn join_soles(
    set: &mut LockSet,
    other: u32,
    last: u32,
    made: bool,
    block: u32,
) -> Result<(), NoMemory>
    ensures { OnOk result (set.new ≡ joined_all set.old (clear_soles other last made block)) }
{
    set.join(LockId::Node(other), Mode::Sole)?;
    set.join(LockId::Node(last), Mode::Sole)?;
    if made {
        set.join(LockId::Segment(last / SEGMENT_INODES), Mode::Sole)?;
    }
    set.join(LockId::Segment(block / SEGMENT_BLOCKS), Mode::Sole)
}

// How many nodes after the other one the last one was looked at.
fn nodes_behind(over: &Op) -> usize
    ensures { result ≡ nodes_behind over.now }
{
    match over {
        Op::Rename { to, .. } => to.len(),
        _ => 1,
    }
}

// The operation makes a node.
fn makes_node(over: &Op) -> bool
    ensures { result ≡ makes_node over.now }
{
    match over {
        Op::Create { .. } | Op::Mkdir { .. } | Op::Symlink { .. } => true,
        _ => false,
    }
}
