// How many blocks are or were directories'.
ghost use Rattle.std.specs.Prelude.{◌≡◌, ◌≤◌, ◌<◌, ◌+◌, ◌*◌, ◌==◌, ◌||◌};
ghost use Rattle.frang_base.specs.declared.limits.TheConstants.{SEGMENT_BLOCKS};
ghost use Rattle.disk_definitions.specs.Least.{count};
ghost use Rattle.disk_definitions.specs.Held.{state_in};
ghost use Rattle.disk_definitions.specs.Picks.{is_in_state};
ghost use Rattle.disk_definitions.specs.Bitmaps.{block_state};
ghost use Rattle.disk_definitions.specs.FilePlans.{directory_blocks};

use bitmap_block::{BlockState, state_of};
use frang_base::limits::{SEGMENT_BLOCKS, SEGMENTS_MAX};
use frang_base::{Bitmap, Held};

/// The small blocks of the held segments that are or were a directory's.
pub(crate) fn directory_blocks(held: &Held) -> u32
    ensures { result ≡ directory_blocks held.now }
{
    let mut blocks = 0;
    for k in 0..SEGMENTS_MAX {
        blocks += directory_blocks_at(held, k);
    }
    blocks
}

// Those of segment `k`.
fn directory_blocks_at(held: &Held, k: u32) -> u32
    ensures is { result ≡ count (λ j. is_in_state 2 (state_in held.now (SEGMENT_BLOCKS * k + j)) || is_in_state 3 (state_in held.now (SEGMENT_BLOCKS * k + j))) SEGMENT_BLOCKS }
    ensures few { result ≤ SEGMENT_BLOCKS }
{
    match held.get(k) {
        Some(bitmap) => directory_blocks_in(bitmap),
        None => 0,
    }
}

fn directory_blocks_in(bitmap: &Bitmap) -> u32
    ensures is { result ≡ count (λ j. block_state bitmap.now j == 2 || block_state bitmap.now j == 3) SEGMENT_BLOCKS }
    ensures few { result ≤ SEGMENT_BLOCKS }
{
    let mut blocks = 0;
    for j in 0..SEGMENT_BLOCKS {
        blocks += u32::from(is_directory_block(bitmap, j));
    }
    blocks
}

fn is_directory_block(bitmap: &Bitmap, j: u32) -> bool
    requires { j < SEGMENT_BLOCKS }
    ensures { result ≡ (block_state bitmap.now j == 2 || block_state bitmap.now j == 3) }
{
    match state_of(bitmap, j) {
        BlockState::FormerDirectory | BlockState::Directory => true,
        BlockState::Unused | BlockState::FileBytes => false,
    }
}
