// Picks: the least inode or block that is free, held segment after held segment.
ghost use Rattle.std.specs.Prelude.{◌≡◌, ◌≤◌, ◌<◌, ◌+◌, ◌-◌, ◌*◌, ◌==◌, not, IfOk, IfSome};
ghost use Rattle.std.specs.Option.{option_map};
ghost use Rattle.frang_base.specs.declared.limits.TheConstants.{SEGMENT_BLOCKS, SEGMENT_INODES, SEGMENTS_MAX};
ghost use Rattle.bitmap_block.specs.States.{state_number};
ghost use Rattle.disk_definitions.specs.Bitmaps.{inode_bit, block_state};
ghost use Rattle.disk_definitions.specs.Least.{least, least_from};
ghost use Rattle.disk_definitions.specs.Held.{inode_in, state_in, large_in};
ghost use Rattle.disk_definitions.specs.Picks.{is_free, is_in_state, picked_inode, picked_small, picked_large, picked_many};

use bitmap_block::{BlockState, inode_in_use, state_of};
use disk_definitions::Use;
use frang_base::limits::{SEGMENT_BLOCKS, SEGMENT_INODES, SEGMENTS_MAX};
use frang_base::{Bitmap, Held, NoMemory};
use std::alloc::Global;

/// The least free inode of the held segments, 0 to 4,095. `None` exactly where no held segment has a free one.
pub fn pick_inode(held: &Held) -> Option<u32>
    ensures { result ≡ picked_inode held.now }
{
    for k in 0..SEGMENTS_MAX {
        if let Some(j) = free_inode(held, k) {
            return Some(SEGMENT_INODES * k + j);
        }
    }
    None
}

/// The least small block, 0 to 65,535, that may hold this. Bytes of a file get a block that is free and never was a directory's; a
/// directory gets a free one that was a directory's, and one that never was only where no held segment has such a one. `None` exactly where
/// no held segment has one.
pub fn pick_small(held: &Held, want: Use) -> Option<u32>
    ensures { result ≡ picked_small held.now want }
{
    match want {
        Use::Bytes => least_block(held, BlockState::Unused, 0),
        Use::Directory => match least_block(held, BlockState::FormerDirectory, 0) {
            Some(block) => Some(block),
            None => least_block(held, BlockState::Unused, 0),
        },
    }
}

/// The least free large block of the held segments, 0 to 63. `None` exactly where no held segment has a free one.
pub fn pick_large(held: &Held) -> Option<u32>
    ensures { result ≡ picked_large held.now }
{
    for k in 0..SEGMENTS_MAX {
        if is_large_free(held, k) {
            return Some(k);
        }
    }
    None
}

/// `count` small blocks for bytes of a file, picked one after another, each taken before the next is picked: the least ones, ascending.
/// `None` exactly where the held segments have fewer. The one error is want of memory for the list.
pub fn pick_many(alloc: Global, held: &Held, count: usize) -> Result<Option<Vec<u32>>, NoMemory>
    ensures { IfOk result (λ picks. option_map (λ v. v.items) picks ≡ picked_many held.now count) }
{
    let mut picked = Vec::new(alloc);
    let mut from = 0;
    while picked.len() < count {
        let Some(block) = least_block(held, BlockState::Unused, from) else {
            return Ok(None);
        };
        picked.push(block)?;
        from = block + 1;
    }
    Ok(Some(picked))
}

// The least free inode of segment `k`, by its place in it.
fn free_inode(held: &Held, k: u32) -> Option<u32>
    ensures least { result ≡ least (λ j. is_free (inode_in held.now (SEGMENT_INODES * k + j))) SEGMENT_INODES }
    ensures below { IfSome result (λ j. j < SEGMENT_INODES) }
{
    let bitmap = held.get(k)?;
    free_inode_of(bitmap)
}

fn free_inode_of(bitmap: &Bitmap) -> Option<u32>
    ensures least { result ≡ least (λ j. not (inode_bit bitmap.now j)) SEGMENT_INODES }
    ensures below { IfSome result (λ j. j < SEGMENT_INODES) }
{
    for j in 0..SEGMENT_INODES {
        let free = !inode_in_use(bitmap, j);
        if free {
            return Some(j);
        }
    }
    None
}

fn is_large_free(held: &Held, k: u32) -> bool
    ensures { result ≡ is_free (large_in held.now k) }
{
    match held.get(k) {
        Some(bitmap) => !bitmap.large,
        None => false,
    }
}

// The least small block in this state from a block on.
fn least_block(held: &Held, state: BlockState, from: u32) -> Option<u32>
    requires { from ≤ SEGMENTS_MAX * SEGMENT_BLOCKS }
    ensures least { result ≡ least_from (λ b. is_in_state (state_number state) (state_in held.now b)) from (SEGMENTS_MAX * SEGMENT_BLOCKS - from) }
    ensures below { IfSome result (λ b. b < SEGMENTS_MAX * SEGMENT_BLOCKS) }
{
    let mut start = from % SEGMENT_BLOCKS;
    for k in from / SEGMENT_BLOCKS..SEGMENTS_MAX {
        if let Some(j) = least_in_segment(held, k, state, start) {
            return Some(SEGMENT_BLOCKS * k + j);
        }
        start = 0;
    }
    None
}

// The least small block of segment `k` in this state, from a place in it on and by its place in it.
fn least_in_segment(held: &Held, k: u32, state: BlockState, start: u32) -> Option<u32>
    requires { start ≤ SEGMENT_BLOCKS }
    ensures least { result ≡ least_from (λ j. is_in_state (state_number state) (state_in held.now (SEGMENT_BLOCKS * k + j))) start (SEGMENT_BLOCKS - start) }
    ensures below { IfSome result (λ j. j < SEGMENT_BLOCKS) }
{
    let bitmap = held.get(k)?;
    least_of(bitmap, state, start)
}

fn least_of(bitmap: &Bitmap, state: BlockState, start: u32) -> Option<u32>
    requires { start ≤ SEGMENT_BLOCKS }
    ensures least { result ≡ least_from (λ j. block_state bitmap.now j == state_number state) start (SEGMENT_BLOCKS - start) }
    ensures below { IfSome result (λ j. j < SEGMENT_BLOCKS) }
{
    for j in start..SEGMENT_BLOCKS {
        if state_of(bitmap, j) == state {
            return Some(j);
        }
    }
    None
}
