// Which inodes may stand on the disk.
ghost use Rattle.std.specs.Prelude.{◌≡◌, ◌≤◌, ◌&&◌, drop, take};
ghost use Rattle.std.specs.List.{list_all};
ghost use Rattle.tree_definitions.specs.Tree.{small_blocks_of};
ghost use Rattle.sector_bytes.specs.Bytes.{are_zero};
ghost use Rattle.disk_definitions.specs.Inodes.{ends_blocks, inode_fits, is_directory_inode, is_file_inode, is_free_inode, is_link_inode};
ghost use Rattle.frang_base.specs.Name.{is_target_byte};

use disk_definitions::Inode;
use frang_base::limits::{
    BLOCK_ENTRIES, FILE_BYTES_MAX, INODE_BLOCKS_MAX, KIND_DIRECTORY, KIND_FILE, KIND_FREE,
    KIND_LINK, LINKS_MAX, SMALL_BLOCK_BYTES, SMALL_BYTES_MAX, TARGET_BYTES_MAX,
};
use sector_bytes::are_zero;

/// Whether the inode is in the grammar of its kind.
pub(crate) fn fits(x: &Inode) -> bool
    ensures { result ≡ inode_fits x.now }
{
    is_free(x) || is_file(x) || is_directory(x) || is_link(x)
}

fn is_free(x: &Inode) -> bool
    ensures { result ≡ is_free_inode x.now }
{
    x.kind == KIND_FREE
        && x.links == 0
        && x.blocks == 0
        && x.size == 0
        && x.birth == 0
        && are_zero_numbers(&x.small)
        && x.large == 0
        && x.when == 0
        && are_zero(&x.target)
}

fn is_file(x: &Inode) -> bool
    ensures { result ≡ is_file_inode x.now }
{
    x.kind == KIND_FILE
        && 1 <= x.links
        && x.links <= LINKS_MAX
        && x.size <= FILE_BYTES_MAX
        && u64::from(x.blocks) == small_blocks_of(x.size)
        && ends_blocks(x)
        && (if x.size > SMALL_BYTES_MAX {
            x.large > 0
        } else {
            x.large == 0
        })
        && are_zero(&x.target)
}

fn is_directory(x: &Inode) -> bool
    ensures { result ≡ is_directory_inode x.now }
{
    x.kind == KIND_DIRECTORY
        && x.links == 1
        && u32::from(x.blocks) <= INODE_BLOCKS_MAX
        && x.size <= u64::from(BLOCK_ENTRIES) * u64::from(x.blocks)
        && ends_blocks(x)
        && x.large == 0
        && x.when == 0
        && are_zero(&x.target)
}

fn is_link(x: &Inode) -> bool
    ensures { result ≡ is_link_inode x.now }
{
    x.kind == KIND_LINK
        && 1 <= x.links
        && x.links <= LINKS_MAX
        && x.blocks == 0
        && are_zero_numbers(&x.small)
        && x.large == 0
        && x.when == 0
        && 1 <= x.size
        && x.size <= TARGET_BYTES_MAX as u64
        && is_target(&x.target, x.size as usize)
}

fn small_blocks_of(size: u64) -> u64
    ensures { result ≡ small_blocks_of size }
{
    size.min(SMALL_BYTES_MAX).div_ceil(SMALL_BLOCK_BYTES)
}

fn ends_blocks(x: &Inode) -> bool
    ensures { result ≡ ends_blocks x.now }
{
    let blocks = usize::from(x.blocks);
    blocks >= INODE_BLOCKS_MAX as usize || are_zero_numbers(&x.small[blocks..])
}

// The first bytes are a target, and the others are zeros.
fn is_target(bytes: &[u8; TARGET_BYTES_MAX], len: usize) -> bool
    requires { len ≤ TARGET_BYTES_MAX }
    ensures { result ≡ (list_all is_target_byte (take len bytes.now) && are_zero (drop len bytes.now)) }
{
    are_target_bytes(&bytes[..len]) && are_zero(&bytes[len..])
}

fn are_target_bytes(bytes: &[u8]) -> bool
    ensures { result ≡ list_all is_target_byte bytes.now }
{
    bytes.iter().all(|b| is_target_byte(*b))
}

fn is_target_byte(b: u8) -> bool
    ensures { result ≡ is_target_byte b }
{
    b > b' ' && b != 0x7F
}

fn are_zero_numbers(numbers: &[u32]) -> bool
    ensures { result ≡ are_zero numbers.now }
{
    numbers.iter().all(|n| *n == 0)
}
