// What a segment is once an inode or a block of it is taken or given back.
ghost use Rattle.std.specs.Prelude.{◌≡◌, ◌<◌};
ghost use Rattle.frang_base.specs.declared.limits.TheConstants.{SEGMENT_BLOCKS, SEGMENT_INODES};
ghost use Rattle.bitmap_block.specs.States.{state_number};
ghost use Rattle.disk_definitions.specs.Taken.{with_inode as inode_marked, with_state as state_marked};

use bitmap_block::{BlockState, with_inode, with_state};
use frang_base::Bitmap;

/// The segment with its inode `j`, 0 to 63, in use or free. All else stays.
pub fn mark_inode(bitmap: Bitmap, j: u32, used: bool) -> Bitmap
    requires { j < SEGMENT_INODES }
    ensures { result ≡ inode_marked bitmap j used }
{
    with_inode(&bitmap, j, used)
}

/// The segment with its small block `j`, 0 to 1,023, in this state: `FileBytes` or `Directory` once it is taken, `Unused` or
/// `FormerDirectory` once it is given back. All else stays.
pub fn mark_block(bitmap: Bitmap, j: u32, state: BlockState) -> Bitmap
    requires { j < SEGMENT_BLOCKS }
    ensures { result ≡ state_marked bitmap j (state_number state) }
{
    with_state(&bitmap, j, state)
}
