// What a change of a directory has to put into its sector.
ghost use Rattle.std.specs.Prelude.{◌≡◌, IfOk, IsTrue};
ghost use Rattle.disk_definitions.specs.Directories.{directory_bytes, directory_fits};
ghost use Rattle.sector_bytes.specs.Patches.{patches_of};

use crate::writing::block_of;
use block_patches::patches_of;
use disk_definitions::DirSector;
use frang_base::{NoMemory, Patches};
use std::alloc::Global;

/// The longest runs of bytes, from byte 8 on, in which two sectors of directories differ, ascending. The version, in the first 8
/// bytes, counts for nothing. Its one refusal is want of memory.
pub fn patches(alloc: Global, old: &DirSector, new: &DirSector) -> Result<Patches, NoMemory>
    requires old { IsTrue (directory_fits old.now) }
    requires new { IsTrue (directory_fits new.now) }
    ensures { IfOk result (λ patches. patches ≡ patches_of (directory_bytes old.now) (directory_bytes new.now)) }
{
    patches_of(alloc, &block_of(old), &block_of(new))
}
