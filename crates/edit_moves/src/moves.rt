// The moves of a plan.
ghost use Rattle.std.specs.Prelude.{◌≡◌, IfOk, List, OnOk, [], map};
ghost use Rattle.std.specs.List.{IsDistinct};
ghost use Rattle.std.specs.Option.{option_map};
ghost use Rattle.disk_definitions.specs.Ask.{Sector};
ghost use Rattle.disk_definitions.specs.Store.{is_unused};
ghost use Rattle.disk_definitions.specs.Moves as covers;
ghost use Rattle.disk_definitions.specs.Moves.{moved_block, moved_by};
ghost use Rattle.plan_steps.specs.Edits.{edit_of, edits_of};
ghost use Rattle.edit_moves.specs.Moves.{has_thing, is_same, lock_by, lock_in, cover_in, moves_by, thing_said, use_as, with_move};

use crate::said::{bit_said, large_said, large_taker_of, taker_of, use_said};
use crate::thing::Thing;
use bitmap_block::BlockState;
use frang_base::limits::{SEGMENT_BLOCKS, SEGMENT_INODES};
use frang_base::{LockId, NoMemory};
use plan_steps::Edit;
use std::alloc::Global;

/// A thing that is taken or freed, and the lock under which its sectors are from then on.
#[derive(Clone, Copy)]
pub struct Move {
    pub thing: Thing,
    /// The lock of the node that takes it, or of the segment that keeps the bit of what is freed.
    pub lock: LockId,
}

/// What the edits of a plan move from lock to lock, each thing once: the sectors of each inode and of each block that they take go under the lock of its
/// node, of each that they free under that of its segment, cached or not; all other sectors stay under their locks. Its one refusal is want of memory.
pub fn moves_of(alloc: Global, edits: &[Edit]) -> Result<Vec<Move>, NoMemory>
    ensures exact { IfOk result (λ moved. (sector : Sector) → cover_in moved.items sector ≡ moved_by (edits_of edits.now) sector) }
    ensures once { IfOk result (λ moved. IsDistinct is_same (map (λ one. one.thing) moved.items)) }
{
    moves_by_edits(alloc, edits)
}

/// The lock under which the moves put the sectors of a thing. `None` exactly where none of them is of it.
pub fn lock_in(moves: &[Move], thing: &Thing) -> Option<LockId>
    ensures { result ≡ lock_in moves.now thing.now }
{
    for one in moves {
        if thing.is_same(&one.thing) {
            return Some(one.lock);
        }
    }
    None
}

// Edit after edit, what it takes or frees.
fn moves_by_edits(alloc: Global, edits: &[Edit]) -> Result<Vec<Move>, NoMemory>
    ensures { IfOk result (λ moved. moved.items ≡ moves_by (edits_of edits.now) (edits_of edits.now) []) }
{
    let mut moves = Vec::new(alloc);
    for edit in edits {
        if let Some(thing) = thing_said(edit)
            && let Some(lock) = new_lock(edits, &thing)
        {
            add(&mut moves, Move { thing, lock })?;
        }
    }
    Ok(moves)
}

// The thing that an edit takes or frees.
fn thing_said(edit: &Edit) -> Option<Thing>
    ensures { result ≡ thing_said (edit_of edit.now) }
{
    match edit {
        Edit::Bit { number, .. } => Some(Thing::Inode(*number)),
        Edit::Use { block, .. } => Some(Thing::Small(*block)),
        Edit::Large { block, .. } => Some(Thing::Large(*block)),
        _ => None,
    }
}

// The lock under which the edits move a thing, where they move it.
fn new_lock(edits: &[Edit], thing: &Thing) -> Option<LockId>
    ensures { result ≡ lock_by (edits_of edits.now) thing.now }
{
    match thing {
        Thing::Inode(number) => inode_lock(edits, *number),
        Thing::Small(block) => small_lock(edits, *block),
        Thing::Large(block) => large_lock(edits, *block),
    }
}

fn inode_lock(edits: &[Edit], number: u32) -> Option<LockId>
    ensures { result ≡ covers.inode_move number (covers.first_said (covers.bit_said number) (edits_of edits.now)) }
{
    match bit_said(edits, number) {
        None => None,
        Some(true) => Some(LockId::Node(number)),
        Some(false) => Some(LockId::Segment(number / SEGMENT_INODES)),
    }
}

fn small_lock(edits: &[Edit], block: u32) -> Option<LockId>
    ensures { result ≡ moved_block block (edits_of edits.now) }
{
    match use_said(edits, block) {
        None => None,
        Some(state) => {
            if is_unused(state) {
                Some(LockId::Segment(block / SEGMENT_BLOCKS))
            } else {
                node_lock(taker_of(edits, block))
            }
        }
    }
}

// No node uses such a block.
fn is_unused(state: BlockState) -> bool
    ensures { result ≡ is_unused (use_as state) }
{
    match state {
        BlockState::Unused | BlockState::FormerDirectory => true,
        BlockState::FileBytes | BlockState::Directory => false,
    }
}

fn large_lock(edits: &[Edit], block: u32) -> Option<LockId>
    ensures { result ≡ covers.large_move block (covers.first_said (covers.large_taker_said block) (edits_of edits.now)) (covers.first_said (covers.large_said block) (edits_of edits.now)) }
{
    match large_said(edits, block) {
        None => None,
        Some(true) => node_lock(large_taker_of(edits, block)),
        Some(false) => Some(LockId::Segment(block)),
    }
}

// The lock of a node, where there is one.
fn node_lock(inode: Option<u32>) -> Option<LockId>
    ensures { result ≡ option_map covers.node_lock inode }
{
    match inode {
        Some(inode) => Some(LockId::Node(inode)),
        None => None,
    }
}

// Adds a move, where the thing hasn't one yet.
fn add(moves: &mut Vec<Move>, one: Move) -> Result<(), NoMemory>
    ensures { OnOk result (moves.new.items ≡ with_move moves.old.items one) }
{
    if has_thing(moves.as_slice(), &one.thing) {
        return Ok(());
    }
    moves.push(one)?;
    Ok(())
}

// Whether one of the moves is of this thing.
fn has_thing(moves: &[Move], thing: &Thing) -> bool
    ensures { result ≡ has_thing moves.now thing.now }
{
    for one in moves {
        if thing.is_same(&one.thing) {
            return true;
        }
    }
    false
}
