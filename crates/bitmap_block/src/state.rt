// The states of the small blocks of a segment.
ghost use Rattle.std.specs.Prelude.{◌≡◌, ◌<◌, ◌≤◌, ◌+◌, ◌-◌, ◌*◌, ◌/◌, ◌%◌, ◌^◌, ◌==◌, ℕ, if◌then◌else◌};
ghost use Rattle.bitmap_block.specs.States.{state_number};
ghost use Rattle.disk_definitions.specs.Bitmaps.{block_state};

use frang_base::Bitmap;
use frang_base::limits::SEGMENT_BLOCKS;

/// What a small block is used for.
#[derive(Clone, Copy, Debug, PartialEq, Eq)]
pub enum BlockState {
    /// Free, and never a directory's block.
    Unused,
    /// It holds bytes of a file.
    FileBytes,
    /// Free, and it was a directory's block.
    FormerDirectory,
    /// A directory's block.
    Directory,
}

/// The state of small block `j` of the segment, 0 to 1,023.
pub fn state_of(bitmap: &Bitmap, j: u32) -> BlockState
    requires { j < SEGMENT_BLOCKS }
    ensures { state_number result ≡ block_state bitmap.now j }
{
    state_from(bitmap.states[(j / 4) as usize] / weight(j % 4) % 4)
}

/// The segment with small block `j`, 0 to 1,023, in this state. All else stays.
pub fn with_state(bitmap: &Bitmap, j: u32, state: BlockState) -> Bitmap
    requires { j < SEGMENT_BLOCKS }
    ensures states { (k : ℕ) → k < SEGMENT_BLOCKS → block_state result k ≡ (if k == j then state_number state else block_state bitmap.now k) }
    ensures others { (result.version ≡ bitmap.now.version) × (result.inodes ≡ bitmap.now.inodes) × (result.large ≡ bitmap.now.large) }
{
    let at = (j / 4) as usize;
    let mut changed = *bitmap;
    changed.states[at] = replaced(bitmap.states[at], j % 4, number_of(state));
    changed
}

// What one stands for at this place of a byte.
fn weight(place: u32) -> u8
    requires { place < 4 }
    ensures power { result ≡ 4 ^ place }
    ensures positive { 0 < result }
{
    4u8.pow(place)
}

// The byte with another state at a place.
fn replaced(byte: u8, place: u32, state: u8) -> u8
    requires place { place < 4 }
    requires state { state < 4 }
    ensures { (k : ℕ) → k < 4 → result / 4 ^ k % 4 ≡ (if k == place then state else byte / 4 ^ k % 4) }
{
    let weight = weight(place);
    byte - byte / weight % 4 * weight + state * weight
}

fn number_of(state: BlockState) -> u8
    ensures { result ≡ state_number state }
{
    match state {
        BlockState::Unused => 0,
        BlockState::FileBytes => 1,
        BlockState::FormerDirectory => 2,
        BlockState::Directory => 3,
    }
}

fn state_from(number: u8) -> BlockState
    requires { number < 4 }
    ensures { state_number result ≡ number }
{
    match number {
        0 => BlockState::Unused,
        1 => BlockState::FileBytes,
        2 => BlockState::FormerDirectory,
        _ => BlockState::Directory,
    }
}
