// What a file keeps and gives up when it gets shorter.
ghost use Rattle.std.specs.Prelude.{◌≡◌, ◌≤◌, ◌<◌, ◌*◌, ℕ, nat_lt, if◌then◌else◌, slice_index, [], None};
ghost use Rattle.frang_base.specs.declared.limits.TheConstants.{INODE_BLOCKS_MAX};
ghost use Rattle.tree_definitions.specs.Tree.{small_blocks_of};
ghost use Rattle.disk_definitions.specs.Store.{stored};
ghost use Rattle.disk_definitions.specs.FilePlans.{blocks_between, large_after, large_cut, large_segment, resized};
ghost use Rattle.op_data.specs.Files.{IsFile};

use disk_definitions::Inode;
use frang_base::limits::SMALL_BYTES_MAX;
use tree_edits::small_blocks_of;

/// The small blocks of a file that are past its end once it has `len` bytes.
pub(crate) fn blocks_past(inode: &Inode, len: u32) -> &[u32]
    requires file { IsFile inode.now }
    requires len { len ≤ inode.now.size }
    ensures { result.now ≡ blocks_between (stored inode.now) (small_blocks_of len) inode.now.blocks }
{
    let kept = blocks_of(u64::from(len));
    &inode.small[usize::from(kept)..usize::from(inode.blocks)]
}

/// The large block of a file that is past its end once it has `len` bytes.
pub(crate) fn large_past(inode: &Inode, len: u32) -> Option<u32>
    ensures { large_segment result ≡ large_cut (stored inode.now) len }
{
    if inode.large != 0 && u64::from(len) <= SMALL_BYTES_MAX {
        Some(inode.large - 1)
    } else {
        None
    }
}

/// The file's inode once it is cut to `len` bytes, at the time `when`.
pub(crate) fn shortened(inode: &Inode, when: u64, len: u32) -> Inode
    requires file { IsFile inode.now }
    requires len { len ≤ inode.now.size }
    ensures { stored result ≡ resized (stored inode.now) when len [] None }
{
    let blocks = blocks_of(u64::from(len));
    Inode {
        size: u64::from(len),
        blocks,
        small: first_of(&inode.small, blocks),
        large: large_kept(inode, len),
        when,
        ..*inode
    }
}

/// The small blocks that a file of this size has: at most 16.
pub(crate) fn blocks_of(size: u64) -> u16
    ensures is { result ≡ small_blocks_of size }
    ensures few { result ≤ INODE_BLOCKS_MAX }
{
    small_blocks_of(size as usize) as u16
}

// The first so many, and zeros.
fn first_of(small: &[u32; 16], count: u16) -> [u32; 16]
    requires { count ≤ INODE_BLOCKS_MAX }
    ensures { (n : ℕ) → slice_index result n ≡ (if nat_lt n count then slice_index small.now n else 0) }
{
    let mut first = *small;
    first[usize::from(count)..].fill(0);
    first
}

fn large_kept(inode: &Inode, len: u32) -> u32
    ensures { result ≡ large_after (stored inode.now) None len }
{
    if u64::from(len) > SMALL_BYTES_MAX {
        inode.large
    } else {
        0
    }
}
