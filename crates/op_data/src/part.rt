// The edit of a sector of a file, which is 512 of its bytes, counted from its first.
ghost use Rattle.std.specs.Prelude.{◌≡◌, ◌<◌, ◌+◌, slice_index};
ghost use Rattle.frang_base.specs.declared.limits.TheConstants.{LARGE_BLOCK_SECTORS, SMALL_SECTORS_MAX};
ghost use Rattle.disk_definitions.specs.Store.{stored};
ghost use Rattle.disk_definitions.specs.FilePlans.{set_sector};
ghost use Rattle.plan_steps.specs.Edits.{edit_of};

use disk_definitions::Inode;
use frang_base::Block;
use frang_base::limits::{SMALL_BLOCK_SECTORS, SMALL_SECTORS_MAX};
use plan_steps::Edit;

/// The edit that writes these bytes into sector `t` of a file.
pub(crate) fn set_sector(inode: &Inode, t: u32, bytes: &Block) -> Edit
    requires { t < SMALL_SECTORS_MAX + LARGE_BLOCK_SECTORS }
    ensures { edit_of result ≡ set_sector (stored inode.now) t (slice_index bytes.now) }
{
    if t < SMALL_SECTORS_MAX {
        Edit::Bytes {
            block: inode.small[(t / SMALL_BLOCK_SECTORS) as usize],
            part: (t % SMALL_BLOCK_SECTORS) as u8,
            bytes: *bytes,
        }
    } else {
        Edit::LargeBytes {
            block: inode.large.saturating_sub(1),
            part: (t - SMALL_SECTORS_MAX) as u16,
            bytes: *bytes,
        }
    }
}
