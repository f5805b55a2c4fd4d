// What the held segments have free.
ghost use Rattle.std.specs.Prelude.{◌≡◌};
ghost use Rattle.disk_definitions.specs.Held.{inode_in};
ghost use Rattle.disk_definitions.specs.Picks.{is_free};

use bitmap_block::inode_in_use;
use frang_base::Held;
use frang_base::limits::SEGMENT_INODES;

/// Whether a held segment has the inode free.
pub(crate) fn is_free_inode(held: &Held, inode: u32) -> bool
    ensures { result ≡ is_free (inode_in held.now inode) }
{
    match held.get(inode / SEGMENT_INODES) {
        Some(bitmap) => !inode_in_use(bitmap, inode % SEGMENT_INODES),
        None => false,
    }
}
