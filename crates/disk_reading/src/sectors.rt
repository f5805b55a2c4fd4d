// The sectors of a disk, decoded.
ghost use Rattle.std.specs.Prelude.{◌≡◌, ◌≢◌, ◌≤◌, ◌<◌, ◌*◌, true, IfSome};
ghost use Rattle.frang_base.specs.Name.{is_name};
ghost use Rattle.std.specs.Option.{option_map};
ghost use Rattle.disk_definitions.specs.declared.region.Region.TheVariants as region;
ghost use Rattle.disk_definitions.specs.Regions.{sector_of};
ghost use Rattle.disk_definitions.specs.Bitmaps.{bitmap_in};
ghost use Rattle.disk_definitions.specs.Directories.{directory_in, name_in};
ghost use Rattle.disk_definitions.specs.Inodes.{inode_in, inode_fits};
ghost use Rattle.sector_bytes.specs.Sectors.{sectors_of};
ghost use Rattle.disk_definitions.specs.Store.{stored, entered};
ghost use Rattle.standing_laws.specs.Soundness as sound;
ghost use Rattle.disk_reading.specs.Seen.{store_in, use_of_state};

use crate::decoded_disk::DecodedDisk;
use bitmap_block::{BlockState, inode_in_use, state_of};
use disk_definitions::{DirEntry, DirSector, Inode};
use frang_base::Bitmap;
use frang_base::limits::{
    BLOCK_ENTRIES, KIND_FREE, NAME_BYTES_MAX, SECTOR_ENTRIES, SEGMENT_BLOCKS, SEGMENT_INODES,
    SEGMENTS_MAX,
};
use frang_layout::{Region, sector_of};

/// Segment `k` of the bitmap. `None` exactly where its sector isn't in its grammar.
#[tactic(auto, unfolding(crate::specs::Kept::segment_of))]
pub fn segment_at(disk: &DecodedDisk<'_>, k: u32) -> Option<Bitmap>
    ensures { result ≡ bitmap_in (sectors_of disk.now (sector_of (region.Segment k))) }
{
    disk.segment(k)
}

/// Inode `i`. `None` exactly where its sector isn't in its grammar.
#[tactic(auto, unfolding(crate::specs::Kept::inode_of))]
pub fn inode_at(disk: &DecodedDisk<'_>, i: u32) -> Option<Inode>
    ensures { result ≡ inode_in (sectors_of disk.now (sector_of (region.Inode i))) }
{
    disk.inode(i)
}

/// A part of a small block as a sector of a directory. `None` exactly where it isn't in its grammar.
pub fn directory_at(disk: &DecodedDisk<'_>, block: u32, part: u8) -> Option<DirSector>
    ensures { result ≡ directory_in (sectors_of disk.now (sector_of (region.Small block part))) }
{
    dir_block::decode(&disk.get(sector_of(&Region::Small { block, part })))
}

/// Inode `i`, where it is in use. `None` exactly where it is free, past the segments, or not in its grammar.
pub fn used_inode(disk: &DecodedDisk<'_>, segments: u32, i: u32) -> Option<Inode>
    requires { segments ≤ SEGMENTS_MAX }
    ensures is { option_map stored result ≡ (store_in segments disk.now).inode i }
    ensures fits { IfSome result (λ x. inode_fits x ≡ true) }
    ensures used { IfSome result (λ x. x.kind ≢ KIND_FREE) }
{
    if i >= SEGMENT_INODES * segments {
        return None;
    }
    let inode = inode_at(disk, i)?;
    if inode.kind == KIND_FREE {
        None
    } else {
        Some(inode)
    }
}

/// Whether the bit of inode `i` is set; past the segments it isn't.
#[tactic(auto, unfolding(crate::specs::Seen::store_in))]
pub fn bit_of(disk: &DecodedDisk<'_>, segments: u32, i: u32) -> bool
    requires { segments ≤ SEGMENTS_MAX }
    ensures { result ≡ (store_in segments disk.now).bit i }
{
    if i >= SEGMENT_INODES * segments {
        return false;
    }
    match segment_at(disk, i / SEGMENT_INODES) {
        Some(bitmap) => inode_in_use(&bitmap, i % SEGMENT_INODES),
        None => false,
    }
}

/// What a small block is used for; past the segments it is unused.
#[tactic(auto, unfolding(crate::specs::Seen::store_in))]
pub fn use_of(disk: &DecodedDisk<'_>, segments: u32, block: u32) -> BlockState
    requires { segments ≤ SEGMENTS_MAX }
    ensures { use_of_state result ≡ (store_in segments disk.now).use_of block }
{
    if block >= SEGMENT_BLOCKS * segments {
        return BlockState::Unused;
    }
    match segment_at(disk, block / SEGMENT_BLOCKS) {
        Some(bitmap) => state_of(&bitmap, block % SEGMENT_BLOCKS),
        None => BlockState::Unused,
    }
}

/// Whether large block `g` is in use; past the segments it isn't.
#[tactic(auto, unfolding(crate::specs::Seen::store_in))]
pub fn large_bit(disk: &DecodedDisk<'_>, segments: u32, g: u32) -> bool
    requires { segments ≤ SEGMENTS_MAX }
    ensures { result ≡ (store_in segments disk.now).large_bit g }
{
    if g >= segments {
        return false;
    }
    match segment_at(disk, g) {
        Some(bitmap) => bitmap.large,
        None => false,
    }
}

/// The entry at a place of a small block, 0 to 55. `None` exactly where the place is free, the block past the segments, or the sector
/// not in its grammar.
#[tactic(auto, unfolding(crate::specs::Seen::store_in))]
pub fn entry_at(disk: &DecodedDisk<'_>, segments: u32, block: u32, place: u32) -> Option<DirEntry>
    requires few { segments ≤ SEGMENTS_MAX }
    requires place { place < BLOCK_ENTRIES }
    ensures is { option_map entered result ≡ (store_in segments disk.now).place block place }
    ensures proper { IfSome result (λ e. (is_name (name_in e) ≡ true) × (e.len ≤ NAME_BYTES_MAX)) }
{
    if block >= SEGMENT_BLOCKS * segments {
        return None;
    }
    let sector = directory_at(disk, block, (place / SECTOR_ENTRIES) as u8)?;
    let entry = sector.entries[(place % SECTOR_ENTRIES) as usize];
    if entry.kind == KIND_FREE {
        None
    } else {
        Some(entry)
    }
}

/// Whether inode `i` is in use and of this kind.
pub fn has_kind(disk: &DecodedDisk<'_>, segments: u32, i: u32, kind: u8) -> bool
    requires { segments ≤ SEGMENTS_MAX }
    ensures { result ≡ sound.has_kind ((store_in segments disk.now).inode i) kind }
{
    match used_inode(disk, segments, i) {
        Some(inode) => inode.kind == kind,
        None => false,
    }
}
