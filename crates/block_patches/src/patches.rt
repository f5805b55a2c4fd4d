// The patches between two blocks.
ghost use Rattle.std.specs.Prelude.{◌≡◌, ◌≤◌, ◌<◌, ◌^◌, ◌+◌, ◌++◌, not, ◌&&◌, ◌==◌, IfOk, OnOk, OnErr, nat_le, nat_lt, drop, slice_index};
ghost use Rattle.sector_bytes.specs.Patches.{patches_of, patches_with};
ghost use Rattle.block_patches.specs.Runs.{differing, run};

use frang_base::limits::{SECTOR_BYTES, VERSION_BYTES};
use frang_base::{Block, NoMemory, Patch, Patches, Text};
use std::alloc::Global;
use std::ops::Range;

/// The longest runs of bytes, from byte 8 on, in which the new block differs from the old one, ascending. The first 8 bytes, the
/// version, count for nothing. Its one refusal is want of memory.
pub fn patches_of(alloc: Global, old: &Block, new: &Block) -> Result<Patches, NoMemory>
    ensures { IfOk result (λ patches. patches ≡ patches_of old.now new.now) }
{
    patches_with(alloc, old, new, &(0..0))
}

/// The longest runs of bytes, from byte 8 on, in which the new block differs from the old one or which stand at forced places,
/// ascending. So bytes at forced places are in a patch even where they are the same in both. The first 8 bytes, the version, count for
/// nothing, forced or not. Its one refusal is want of memory.
pub fn patches_with(
    alloc: Global,
    old: &Block,
    new: &Block,
    forced: &Range<usize>,
) -> Result<Patches, NoMemory>
    ensures { IfOk result (λ patches. patches ≡ patches_with (λ at. nat_le forced.now.start at && nat_lt at forced.now.end) old.now new.now) }
{
    let mut patches = Patches::new(alloc);
    let mut at = VERSION_BYTES;
    while at < SECTOR_BYTES {
        let end = run_end(old, new, forced, at);
        push_run(alloc, &mut patches, at, &new[at..end])?;
        at = end + 1;
    }
    Ok(patches)
}

// The place of the first byte from a place on that is left as it is, or the end of the block.
fn run_end(old: &Block, new: &Block, forced: &Range<usize>, from: usize) -> usize
    requires { from ≤ SECTOR_BYTES }
    ensures end { result ≡ from + differing (λ at. nat_le forced.now.start at && nat_lt at forced.now.end) from (drop from old.now) (drop from new.now) }
    ensures after { from ≤ result }
    ensures within { result ≤ SECTOR_BYTES }
{
    let mut at = from;
    while at < SECTOR_BYTES && !is_left(old, new, forced, at) {
        at += 1;
    }
    at
}

// Whether the byte at a place is the same in both, and not forced.
fn is_left(old: &Block, new: &Block, forced: &Range<usize>, at: usize) -> bool
    requires { at < SECTOR_BYTES }
    ensures { result ≡ (not (nat_le forced.now.start at && nat_lt at forced.now.end) && slice_index old.now at == slice_index new.now at) }
{
    !(forced.start <= at && at < forced.end) && old[at] == new[at]
}

// Adds the patch of these bytes, if there are any.
fn push_run(alloc: Global, patches: &mut Patches, at: usize, bytes: &[u8]) -> Result<(), NoMemory>
    requires { at < 2 ^ 16 }
    ensures ok { OnOk result (patches.new ≡ patches.old ++ run at bytes.now) }
    ensures err { OnErr result (patches.new ≡ patches.old) }
{
    if bytes.is_empty() {
        return Ok(());
    }
    patches.push(Patch {
        at: at as u16,
        bytes: Text::of(alloc, bytes)?,
    })
}
