// A block's version, and changes laid over a block.
ghost use Rattle.std.specs.Prelude.{◌≡◌, ◌↔◌, ◌+◌, ◌≤◌, [], ◌∷◌, length, true};
ghost use Rattle.sector_bytes.specs.Changes.{changed, applied, is_change};
ghost use Rattle.sector_bytes.specs.Blocks.{version_of, patched};
ghost use Rattle.meta_version.specs.Updates.{apply_answer};

use byteorder::{ByteOrder, LittleEndian};
use frang_base::{Block, Change, Patch};

/// What became of a change.
#[derive(Clone, Copy, PartialEq, Eq)]
pub enum Applied {
    /// It was made.
    Applied,
    /// The block wasn't older, and is as it was.
    Skipped,
}

/// The version of a block: the number in its first eight bytes, the lowest first.
pub fn version_of(block: &Block) -> u64
    ensures { result ≡ version_of block.now }
{
    LittleEndian::read_u64(block)
}

/// Applies a change: where the block is older than the change, its patches are made and its version becomes the change's. `Skipped`
/// comes exactly where the block's version isn't less than the change's, and the block then stays. It takes no memory.
pub fn apply(block: &mut Block, change: &Change) -> Applied
    requires { is_change change.now ≡ true }
    ensures block { block.new ≡ applied block.old change.now }
    ensures answer { result ≡ apply_answer block.old change.now }
    ensures skipped { (result ≡ Applied.Skipped) ↔ (change.now.version ≤ version_of block.old) }
{
    if change.version <= version_of(block) {
        return Applied::Skipped;
    }
    lay(block, change);
    Applied::Applied
}

/// Lays a change over a block, whatever the block's version. It takes no memory.
pub(crate) fn lay(block: &mut Block, change: &Change)
    requires { is_change change.now ≡ true }
    ensures { block.new ≡ changed block.old change.now }
{
    for patch in change.patches.as_slice() {
        write(block, patch);
    }
    LittleEndian::write_u64(block, change.version);
}

// Puts a patch's bytes into a block.
fn write(block: &mut Block, patch: &Patch)
    requires { patch.now.at + length patch.now.bytes ≤ 512 }
    ensures { block.new ≡ patched (patch.now ∷ []) block.old }
{
    let at = usize::from(patch.at);
    let bytes = patch.bytes.as_slice();
    block[at..at + bytes.len()].copy_from_slice(bytes);
}
