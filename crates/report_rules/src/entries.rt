// The entries of directories, and the inodes that they name.
ghost use Rattle.std.specs.Prelude.{◌≡◌, ◌≤◌, ◌*◌, true, IfSome};
ghost use Rattle.std.specs.Option.{option_map};
ghost use Rattle.disk_definitions.specs.Inodes.{inode_fits};
ghost use Rattle.disk_definitions.specs.Store.{stored, entered};
ghost use Rattle.disk_reading.specs.Marks.{IsBelow};
ghost use Rattle.disk_reading.specs.Seen.{store_in};
ghost use Rattle.report_definitions.specs.View as view;
ghost use Rattle.report_rules.specs.Entries.{entries_in};

use disk_definitions::{DirEntry, Inode};
use disk_reading::DecodedDisk;
use disk_reading::sectors::{entry_at, has_kind};
use frang_base::limits::{
    BLOCK_ENTRIES, DIRECTORY_ENTRIES_MAX, KIND_DIRECTORY, SEGMENT_INODES, SEGMENTS_MAX,
};

/// The entry at a place of an inode in use, where that is a directory with so many places.
#[tactic(auto, using(disk_reading::proofs::PlaceByPlace::dir_few))]
pub fn entry_of(
    disk: &DecodedDisk<'_>,
    segments: u32,
    inode: &Option<Inode>,
    q: u32,
) -> Option<DirEntry>
    requires few { segments ≤ SEGMENTS_MAX }
    requires fits { IfSome inode.now (λ x. inode_fits x ≡ true) }
    ensures { option_map entered result ≡ view.entry_in (store_in segments disk.now) (option_map stored inode.now) q }
{
    let Some(inode) = inode else { return None };
    if inode.kind != KIND_DIRECTORY || q >= BLOCK_ENTRIES * u32::from(inode.blocks) {
        return None;
    }
    let block = inode.small[(q / BLOCK_ENTRIES) as usize];
    entry_at(disk, segments, block, q % BLOCK_ENTRIES)
}

/// The inode that an entry names, where that is in use and of the entry's kind.
pub fn named_by(disk: &DecodedDisk<'_>, segments: u32, entry: Option<DirEntry>) -> Option<u32>
    requires few { segments ≤ SEGMENTS_MAX }
    ensures is { result ≡ view.named_by (store_in segments disk.now) (option_map entered entry) }
    ensures below { IsBelow (SEGMENT_INODES * segments) result }
{
    let entry = entry?;
    if has_kind(disk, segments, entry.inode, entry.kind) {
        Some(entry.inode)
    } else {
        None
    }
}

/// How many entries an inode in use has, where it is a directory.
#[tactic(auto, using(crate::proofs::Counted::count_more))]
pub fn entries_of(disk: &DecodedDisk<'_>, segments: u32, inode: &Option<Inode>) -> u32
    requires few { segments ≤ SEGMENTS_MAX }
    requires fits { IfSome inode.now (λ x. inode_fits x ≡ true) }
    ensures { result ≡ entries_in (store_in segments disk.now) (option_map stored inode.now) }
{
    let mut count = 0;
    for q in 0..DIRECTORY_ENTRIES_MAX {
        if entry_of(disk, segments, inode, q).is_some() {
            count += 1;
        }
    }
    count
}
