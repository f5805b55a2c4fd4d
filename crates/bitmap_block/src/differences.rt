// What a change of a segment has to put into its sector.
ghost use Rattle.std.specs.Prelude.{◌≡◌, IfOk};
ghost use Rattle.disk_definitions.specs.Bitmaps.{bitmap_bytes};
ghost use Rattle.sector_bytes.specs.Patches.{patches_of};

use crate::writing::block_of;
use block_patches::patches_of;
use frang_base::{Bitmap, NoMemory, Patches};
use std::alloc::Global;

/// The longest runs of bytes, from byte 8 on, in which the sectors of two segments differ, ascending. The version, in the first 8
/// bytes, counts for nothing. Its one refusal is want of memory.
pub fn patches(alloc: Global, old: &Bitmap, new: &Bitmap) -> Result<Patches, NoMemory>
    ensures { IfOk result (λ patches. patches ≡ patches_of (bitmap_bytes old.now) (bitmap_bytes new.now)) }
{
    patches_of(alloc, &block_of(old), &block_of(new))
}
