// The file bytes that a finished line sets, with their covers.
ghost use Rattle.std.specs.Prelude.{◌≡◌, ◌/◌, IfOk, Some, length, map, slice_index};
ghost use Rattle.std.specs.List.{filter_map};
ghost use Rattle.std.specs.Option.{option_map, unwrap_or};
ghost use Rattle.frang_base.specs.declared.limits.TheConstants.{SECTOR_BYTES, SEGMENT_BLOCKS};
ghost use Rattle.disk_definitions.specs.CoversAtHand.{large_owner_among, node_or_segment, small_owner_among};
ghost use Rattle.disk_definitions.specs.Edits.{SetBytes, SetLargeBytes};
ghost use Rattle.edit_moves.specs.Moves.{lock_in};
ghost use Rattle.edit_moves.specs.declared.thing.Thing.TheVariants as thing;
ghost use Rattle.plan_steps.specs.Edits.{edit_of, edits_of};
ghost use Rattle.planned_lines.specs.Outcomes.{bytes_as, set_in};

use crate::finished::BytesSet;
use dir_lookup::Hand;
use edit_moves::{Move, Thing, large_cover_among, lock_in, small_cover_among};
use frang_base::{Block, LockId, NoMemory};
use frang_layout::{Region, sector_of};
use plan_steps::Edit;
use std::alloc::Global;
use usable_sectors::Usable;

/// The sectors of file bytes that the edits set, in their order, where the line looked at the inodes of these nodes and the edits make these moves: a sector comes
/// under the lock to which its block moves, and stays under its node's else. Its one refusal is want of memory.
pub(crate) fn bytes_set(
    alloc: Global,
    hand: &Hand,
    nodes: &[u32],
    moves: &[Move],
    edits: &[Edit],
) -> Result<Vec<BytesSet>, NoMemory>
    ensures { IfOk result (λ sets. map bytes_as sets.items ≡ filter_map (set_in hand.now.sectors.now.entries hand.now.held.now nodes.now moves.now) (edits_of edits.now)) }
{
    let mut sets = Vec::new(alloc);
    for edit in edits {
        if let Some(set) = set_by(hand, nodes, moves, edit) {
            sets.push(set)?;
        }
    }
    Ok(sets)
}

// The sector of file bytes that an edit sets.
fn set_by(hand: &Hand, nodes: &[u32], moves: &[Move], edit: &Edit) -> Option<BytesSet>
    ensures { option_map bytes_as result ≡ set_in hand.now.sectors.now.entries hand.now.held.now nodes.now moves.now (edit_of edit.now) }
{
    match edit {
        Edit::Bytes { block, part, bytes } => Some(small_set(
            hand, nodes, moves, *block, *part, bytes,
        )),
        Edit::LargeBytes { block, part, bytes } => {
            Some(large_set(hand, nodes, moves, *block, *part, bytes))
        }
        Edit::Inode { .. }
        | Edit::Bit { .. }
        | Edit::Use { .. }
        | Edit::Place { .. }
        | Edit::Large { .. } => None,
    }
}

// A sector of a small block.
fn small_set(
    hand: &Hand,
    nodes: &[u32],
    moves: &[Move],
    block: u32,
    part: u8,
    bytes: &Block,
) -> BytesSet
    ensures { Some (bytes_as result) ≡ set_in hand.now.sectors.now.entries hand.now.held.now nodes.now moves.now (SetBytes block part (slice_index bytes.now)) }
{
    BytesSet {
        sector: sector_of(&Region::Small { block, part }),
        block: copy_of(bytes),
        cover: small_cover(hand.sectors, nodes, moves, block),
    }
}

// A sector of a large block.
fn large_set(
    hand: &Hand,
    nodes: &[u32],
    moves: &[Move],
    block: u32,
    part: u16,
    bytes: &Block,
) -> BytesSet
    ensures { Some (bytes_as result) ≡ set_in hand.now.sectors.now.entries hand.now.held.now nodes.now moves.now (SetLargeBytes block part (slice_index bytes.now)) }
{
    BytesSet {
        sector: sector_of(&Region::Large { block, part }),
        block: copy_of(bytes),
        cover: large_cover(hand.sectors, nodes, moves, block),
    }
}

// A copy of a block, which says how long it is.
fn copy_of(bytes: &Block) -> Block
    ensures same { result ≡ bytes.now }
    ensures long { length bytes.now ≡ SECTOR_BYTES }
{
    *bytes
}

// The cover of a small block: the lock to which it moves, or its node's.
fn small_cover(sectors: &Usable, nodes: &[u32], moves: &[Move], block: u32) -> LockId
    ensures { result ≡ unwrap_or (lock_in moves.now (thing.Small block)) (node_or_segment (small_owner_among sectors.now.entries nodes.now block) (block / SEGMENT_BLOCKS)) }
{
    match lock_in(moves, &Thing::Small(block)) {
        Some(lock) => lock,
        None => small_cover_among(sectors, nodes, block),
    }
}

// The same of a large block.
fn large_cover(sectors: &Usable, nodes: &[u32], moves: &[Move], block: u32) -> LockId
    ensures { result ≡ unwrap_or (lock_in moves.now (thing.Large block)) (node_or_segment (large_owner_among sectors.now.entries nodes.now block) block) }
{
    match lock_in(moves, &Thing::Large(block)) {
        Some(lock) => lock,
        None => large_cover_among(sectors, nodes, block),
    }
}
