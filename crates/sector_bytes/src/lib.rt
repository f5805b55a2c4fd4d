//! What every layer means by a block, the bytes of a sector: zeros, its version, patches laid over it, a change applied to it, a
//! replay of records, the patches between two blocks, and maps from sectors to blocks and other values. The contracts are laws: a
//! well-formed change keeps a block's length and sets its version, one applied twice is applied once.
//! Its code is the block of zeros, and tests for zeros. It stands on the base types.
#![tactic(auto)]

ghost use Rattle.std.specs.Prelude.{◌≡◌, ◌<◌, ◌≤◌, ◌^◌, ℕ, List, true, length, take, drop};
ghost use Rattle.std.specs.Int.{w64, to_le_bytes, from_le_bytes};
ghost use Rattle.std.specs.Str.{bytes_eq};
ghost use Rattle.frang_base.specs.declared.change.Change.{Change};
ghost use Rattle.frang_base.specs.declared.limits.TheConstants.{SECTOR_BYTES, VERSION_BYTES};
ghost use Rattle.sector_bytes.specs.Bytes.{are_zero};
ghost use Rattle.sector_bytes.specs.Blocks.{Block, version_of, patched, spelling, zero_block};
ghost use Rattle.sector_bytes.specs.Changes.{changed, applied, is_change, Fit};

use frang_base::Block;
use frang_base::limits::SECTOR_BYTES;

/// The block of zeros.
#[tactic(auto, unfolding(crate::specs::Bytes::zeros))]
pub fn zero_block() -> Block
    ensures { result ≡ zero_block }
{
    [0; SECTOR_BYTES]
}

/// Whether a block is the block of zeros.
#[tactic(auto, unfolding(crate::specs::Bytes::zeros))]
pub fn is_zero_block(block: &Block) -> bool
    ensures { result ≡ bytes_eq zero_block block.now }
{
    [0; SECTOR_BYTES] == *block
}

/// Whether all bytes are 0.
pub fn are_zero(bytes: &[u8]) -> bool
    ensures { result ≡ are_zero bytes.now }
{
    bytes.iter().all(|byte| *byte == 0)
}

/// A version is the number that std reads from the first eight bytes, the lowest first, and one below 2^64 is spelled as std
/// writes it.
pub fn versions_are_little_endian()
    ensures read { (block : Block) → VERSION_BYTES ≤ length block → version_of block ≡ from_le_bytes w64 block }
    ensures written { (v : ℕ) → v < 2 ^ 64 → spelling 7 v ≡ to_le_bytes w64 v }
{}

/// A change whose patches fit keeps the length of a block, and sets its version: the first eight bytes are the number's, the lowest
/// first. The bytes after them are those that the patches leave.
pub fn what_a_change_makes()
    ensures fit { (block : Block) (change : Change) → length block ≡ SECTOR_BYTES → Fit change.patches → length (changed block change) ≡ SECTOR_BYTES }
    ensures length { (block : Block) (change : Change) → length block ≡ SECTOR_BYTES → is_change change ≡ true → length (changed block change) ≡ SECTOR_BYTES }
    ensures version { (block : Block) (change : Change) → version_of (changed block change) ≡ change.version }
    ensures head { (block : Block) (change : Change) → is_change change ≡ true → take VERSION_BYTES (changed block change) ≡ to_le_bytes w64 change.version }
    ensures rest { (block : Block) (change : Change) → drop VERSION_BYTES (changed block change) ≡ drop VERSION_BYTES (patched change.patches block) }
{}

/// A change that is applied leaves no older block, so one applied twice is applied once, and no version gets less.
pub fn applied_twice_is_once()
    ensures once { (block : Block) (change : Change) → applied (applied block change) change ≡ applied block change }
    ensures reached { (block : Block) (change : Change) → change.version ≤ version_of (applied block change) }
    ensures rises { (block : Block) (change : Change) → version_of block ≤ version_of (applied block change) }
{}
