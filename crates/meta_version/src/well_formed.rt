// Which changes are well formed.
ghost use Rattle.std.specs.Prelude.{◌≡◌, ◌+◌, ◌≤◌, ◌&&◌, nat_le, nat_lt, length};
ghost use Rattle.sector_bytes.specs.Changes.{are_patches, is_change};

use frang_base::limits::{SECTOR_BYTES, SECTORS_END, VERSION_BYTES};
use frang_base::{Change, Patch};

/// The change is one that a record may hold: its sector is below 2^55, and it has patches, each with at least one byte, that
/// ascend from byte 8 on without overlapping and end within the block.
pub fn is_change(change: &Change) -> bool
    ensures { result ≡ is_change change.now }
{
    // By its type a version is below 2^64, which is what the definition asks of it.
    let _version = change.version;
    if change.sector.0 >= SECTORS_END || change.patches.is_empty() {
        return false;
    }
    are_patches(change.patches.as_slice())
}

// The patches ascend from the version's end on.
fn are_patches(patches: &[Patch]) -> bool
    ensures { result ≡ are_patches 8 patches.now }
{
    let mut from = VERSION_BYTES;
    for patch in patches {
        if !is_patch(patch, from) {
            return false;
        }
        from = usize::from(patch.at) + patch.bytes.len();
    }
    true
}

// The patch has a byte, begins at this place or later and ends within the block.
fn is_patch(patch: &Patch, from: usize) -> bool
    ensures { result ≡ (nat_le from patch.now.at && nat_lt 0 (length patch.now.bytes) && nat_le (patch.now.at + length patch.now.bytes) 512) }
{
    let at = usize::from(patch.at);
    from <= at
        && !patch.bytes.is_empty()
        && at <= SECTOR_BYTES
        && patch.bytes.len() <= SECTOR_BYTES - at
}
