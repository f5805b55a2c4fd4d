// The blocks of directories that are reached.
ghost use Rattle.std.specs.Prelude.{◌≡◌, ◌≤◌, ◌*◌, ◌/◌, ◌%◌, false, replicate, IfOk};
ghost use Rattle.standing_laws.specs.Below.{holds, lists};
ghost use Rattle.disk_reading.specs.Marks.{flag_at};
ghost use Rattle.disk_reading.specs.Reach.{AreFlaggedOn};
ghost use Rattle.disk_reading.specs.Seen.{store_in};
ghost use Rattle.report_rules.specs.Directories.{directory_row};

use crate::flags::Flags;
use disk_reading::DecodedDisk;
use disk_reading::sectors::used_inode;
use frang_base::NoMemory;
use frang_base::limits::{INODE_BLOCKS_MAX, KIND_DIRECTORY, SEGMENT_BLOCKS, SEGMENTS_MAX};
use std::alloc::Global;

// The small block at a place of the row of all inodes, where its inode is a directory that is reached.
fn block_of(disk: &DecodedDisk<'_>, segments: u32, reached: &Flags, t: u32) -> Option<u32>
    requires few { segments ≤ SEGMENTS_MAX }
    ensures { result ≡ directory_row (store_in segments disk.now) (flag_at reached.now) t }
{
    let d = t / INODE_BLOCKS_MAX;
    if !reached.has(d as usize) {
        return None;
    }
    let inode = used_inode(disk, segments, d)?;
    let j = t % INODE_BLOCKS_MAX;
    if inode.kind == KIND_DIRECTORY && j < u32::from(inode.blocks) {
        Some(inode.small[j as usize])
    } else {
        None
    }
}

// Flags a block, where there is one.
fn flag(directories: &mut Flags, block: Option<u32>)
    ensures { AreFlaggedOn (holds block) directories.old directories.new }
{
    if let Some(block) = block {
        directories.set(block as usize);
    }
}

/// The flags of the small blocks of directories that are reached.
pub fn directories(
    alloc: Global,
    disk: &DecodedDisk<'_>,
    segments: u32,
    reached: &Flags,
) -> Result<Flags, NoMemory>
    requires few { segments ≤ SEGMENTS_MAX }
    ensures { IfOk result (λ f. AreFlaggedOn (lists (directory_row (store_in segments disk.now) (flag_at reached.now)) (SEGMENT_BLOCKS * segments)) (replicate (SEGMENT_BLOCKS * segments) false) f) }
{
    let mut directories = Flags::new(alloc, (SEGMENT_BLOCKS * segments) as usize)?;
    for t in 0..SEGMENT_BLOCKS * segments {
        flag(&mut directories, block_of(disk, segments, reached, t));
    }
    Ok(directories)
}
