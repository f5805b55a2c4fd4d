// Laws of inodes and their sectors.
ghost use Rattle.std.specs.Prelude.{◌≡◌, ◌<◌, ◌^◌, List, ℕ, Some, IsTrue, length, slice_index};
ghost use Rattle.frang_base.specs.declared.limits.TheConstants.{INODE_BLOCKS_MAX, TARGET_BYTES_MAX};
ghost use Rattle.frang_base.specs.declared.change.Change.{Change};
ghost use Rattle.sector_bytes.specs.Changes.{changed};
ghost use Rattle.sector_bytes.specs.Blocks.{patched};
ghost use Rattle.disk_definitions.specs.declared.inode.Inode.{Inode};
ghost use Rattle.disk_definitions.specs.Inodes.{inode_bytes, inode_fits, inode_in, IsInodeSector};
ghost use Rattle.sector_bytes.specs.Patches.{patches_of};
ghost use Rattle.disk_definitions.specs.Ranges.{InodeRange};

use disk_definitions::Inode;
use frang_base::limits::TARGET_BYTES_MAX;

/// Each inode has the ranges that the laws below ask for, since its fields have their types.
pub fn inodes_are_in_range(value: &Inode)
    ensures { InodeRange value.now }
{
    let _version = value.version;
    let _kind = value.kind;
    let _links = value.links;
    let _blocks = value.blocks;
    let _size = value.size;
    let _birth = value.birth;
    let _large = value.large;
    let _when = value.when;
    numbers_are_in_range(&value.small);
    small_blocks_are_16(&value.small);
    targets_are_long(&value.target);
}

fn numbers_are_in_range(numbers: &[u32])
    ensures { (i : ℕ) → slice_index numbers.now i < 2 ^ 32 }
{}

fn small_blocks_are_16(numbers: &[u32; 16])
    ensures { length numbers.now ≡ INODE_BLOCKS_MAX }
{}

fn targets_are_long(target: &[u8; TARGET_BYTES_MAX])
    ensures { length target.now ≡ TARGET_BYTES_MAX }
{}

/// What was written of an inode reads back, a block is the sector of what it is read as, what a block is the sector of it is read as,
/// and no block is the sector of two.
pub fn what_is_written_reads_back()
    ensures back { (x : Inode) → InodeRange x → IsTrue (inode_fits x) → inode_in (inode_bytes x) ≡ Some x }
    ensures read { (block : List ℕ) (x : Inode) → inode_in block ≡ Some x → IsInodeSector block x }
    ensures found { (block : List ℕ) (x : Inode) → InodeRange x → IsInodeSector block x → inode_in block ≡ Some x }
    ensures once { (block : List ℕ) (x y : Inode) → InodeRange x → InodeRange y → IsInodeSector block x → IsInodeSector block y → x ≡ y }
{}

/// Laid over the old inode's block, the patches give the new one's but for the version. A change with them and with the new version
/// makes the new one's block of the old one's.
pub fn patches_make_the_new_sector()
    ensures laid { (old new : Inode) → InodeRange old → InodeRange new → patched (patches_of (inode_bytes old) (inode_bytes new)) (inode_bytes old) ≡ inode_bytes (record new { version = old.version }) }
    ensures edited { (x : Change) (old new : Inode) → InodeRange old → InodeRange new → x.patches ≡ patches_of (inode_bytes old) (inode_bytes new) → x.version ≡ new.version → changed (inode_bytes old) x ≡ inode_bytes new }
{}
