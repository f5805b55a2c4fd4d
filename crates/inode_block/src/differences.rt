// What a change of an inode has to put into its sector.
ghost use Rattle.std.specs.Prelude.{◌≡◌, IsTrue, IfOk};
ghost use Rattle.disk_definitions.specs.Inodes.{inode_bytes, inode_fits};
ghost use Rattle.sector_bytes.specs.Patches.{patches_of};

use crate::writing::block_of;
use block_patches::patches_of;
use disk_definitions::Inode;
use frang_base::{NoMemory, Patches};
use std::alloc::Global;

/// The longest runs of bytes, from byte 8 on, in which the sectors of two inodes that fit differ, ascending. The version, in the
/// first 8 bytes, counts for nothing. Its one refusal is want of memory.
pub fn patches(alloc: Global, old: &Inode, new: &Inode) -> Result<Patches, NoMemory>
    requires old { IsTrue (inode_fits old.now) }
    requires new { IsTrue (inode_fits new.now) }
    ensures { IfOk result (λ patches. patches ≡ patches_of (inode_bytes old.now) (inode_bytes new.now)) }
{
    patches_of(alloc, &block_of(old), &block_of(new))
}
