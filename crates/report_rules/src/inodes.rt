// The rules of inodes.
ghost use Rattle.std.specs.Prelude.{◌≡◌, ◌≤◌, ◌<◌, ◌+◌, ◌*◌};
ghost use Rattle.standing_laws.specs.Below.{all_below};
ghost use Rattle.disk_reading.specs.Marks.{flag_at};
ghost use Rattle.disk_reading.specs.Seen.{store_in};
ghost use Rattle.report_definitions.specs.Rules as rules;
ghost use Rattle.report_rules.specs.Seen.{stored};
ghost use Rattle.report_rules.specs.Tables.{AreTables};

use crate::entries::entries_of;
use crate::tables::Tables;
use disk_reading::DecodedDisk;
use disk_reading::sectors::{has_kind, used_inode};
use frang_base::limits::{
    INODE_BLOCKS_MAX, KIND_DIRECTORY, ROOT_INODE, SEGMENT_BLOCKS, SEGMENT_INODES, SEGMENTS_MAX,
};

/// Whether an inode isn't the root's, or inode 0 is a directory.
pub fn is_root_fine(disk: &DecodedDisk<'_>, segments: u32, i: u32) -> bool
    requires { segments ≤ SEGMENTS_MAX }
    ensures { result ≡ rules.is_root_fine (stored segments (store_in segments disk.now)) i }
{
    i != ROOT_INODE || has_kind(disk, segments, ROOT_INODE, KIND_DIRECTORY)
}

// Whether a directory has as many entries as it says, and any other inode in use as many names.
fn counts_agree(disk: &DecodedDisk<'_>, segments: u32, tables: &Tables, i: u32) -> bool
    requires few { segments ≤ SEGMENTS_MAX }
    requires tables { AreTables segments (store_in segments disk.now) tables.now }
    requires within { i < SEGMENT_INODES * segments }
    ensures { result ≡ rules.counts_agree (stored segments (store_in segments disk.now)) (flag_at tables.now.reached) i ((store_in segments disk.now).inode i) }
{
    let found = used_inode(disk, segments, i);
    let Some(inode) = found else { return true };
    if inode.kind == KIND_DIRECTORY {
        u64::from(entries_of(disk, segments, &found)) == inode.size
    } else {
        tables.names.get(i as usize) == u64::from(inode.links)
    }
}

/// Whether an inode that is reached has as many entries or names as it says.
pub fn is_count_fine(disk: &DecodedDisk<'_>, segments: u32, tables: &Tables, i: u32) -> bool
    requires few { segments ≤ SEGMENTS_MAX }
    requires tables { AreTables segments (store_in segments disk.now) tables.now }
    requires within { i < SEGMENT_INODES * segments }
    ensures { result ≡ rules.is_count_fine (stored segments (store_in segments disk.now)) (flag_at tables.now.reached) i }
{
    !tables.reached.has(i as usize) || counts_agree(disk, segments, tables, i)
}

/// Whether an inode is no directory, or has one name at most, and the root none.
#[tactic(auto, using(crate::proofs::Counted::capped_once))]
pub fn is_named_once(disk: &DecodedDisk<'_>, segments: u32, tables: &Tables, i: u32) -> bool
    requires few { segments ≤ SEGMENTS_MAX }
    requires tables { AreTables segments (store_in segments disk.now) tables.now }
    requires within { i < SEGMENT_INODES * segments }
    ensures { result ≡ rules.is_named_once (stored segments (store_in segments disk.now)) (flag_at tables.now.reached) i }
{
    let root = if i == ROOT_INODE { 1 } else { 0 };
    let names = tables.names.get(i as usize).saturating_add(root);
    !has_kind(disk, segments, i, KIND_DIRECTORY) || names <= 1
}

#[tactic(auto, using(standing_laws::proofs::Bounded::all_more))]
fn are_small_fine(disk: &DecodedDisk<'_>, segments: u32, tables: &Tables, i: u32) -> bool
    requires few { segments ≤ SEGMENTS_MAX }
    requires tables { AreTables segments (store_in segments disk.now) tables.now }
    requires within { i < SEGMENT_INODES * segments }
    ensures { result ≡ all_below INODE_BLOCKS_MAX (λ j. rules.is_first_within (SEGMENT_BLOCKS * segments) (rules.used (stored segments (store_in segments disk.now)) (flag_at tables.now.reached)) (INODE_BLOCKS_MAX * i + j)) }
{
    let mut all = true;
    for j in 0..INODE_BLOCKS_MAX {
        all = all && tables.small.is_fine((INODE_BLOCKS_MAX * i + j) as usize);
    }
    all
}

/// Whether the blocks of an inode that is reached are in range, and none stands before.
pub fn are_blocks_fine(disk: &DecodedDisk<'_>, segments: u32, tables: &Tables, i: u32) -> bool
    requires few { segments ≤ SEGMENTS_MAX }
    requires tables { AreTables segments (store_in segments disk.now) tables.now }
    requires within { i < SEGMENT_INODES * segments }
    ensures { result ≡ rules.are_blocks_fine (stored segments (store_in segments disk.now)) (flag_at tables.now.reached) i }
{
    are_small_fine(disk, segments, tables, i) && tables.large.is_fine(i as usize)
}
