// The inodes of a segment that are in use.
ghost use Rattle.std.specs.Prelude.{◌≡◌, ◌<◌, ◌==◌, ℕ, if◌then◌else◌};
ghost use Rattle.disk_definitions.specs.Bitmaps.{inode_bit};

use frang_base::Bitmap;
use frang_base::limits::SEGMENT_INODES;

/// Whether inode `j` of the segment, 0 to 63, is in use.
pub fn inode_in_use(bitmap: &Bitmap, j: u32) -> bool
    requires { j < SEGMENT_INODES }
    ensures { result ≡ inode_bit bitmap.now j }
{
    (bitmap.inodes >> j) % 2 == 1
}

/// The segment with inode `j`, 0 to 63, in use or free. All else stays.
pub fn with_inode(bitmap: &Bitmap, j: u32, used: bool) -> Bitmap
    requires { j < SEGMENT_INODES }
    ensures inodes { (k : ℕ) → k < SEGMENT_INODES → inode_bit result k ≡ (if k == j then used else inode_bit bitmap.now k) }
    ensures others { (result.version ≡ bitmap.now.version) × (result.states ≡ bitmap.now.states) × (result.large ≡ bitmap.now.large) }
{
    let mut changed = *bitmap;
    if used {
        changed.inodes |= 1 << j;
    } else {
        changed.inodes &= !(1 << j);
    }
    changed
}
