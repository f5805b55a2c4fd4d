// The sector of an edit, and its block once the edit is made.
ghost use Rattle.std.specs.Prelude.{◌≡◌, ◌/◌, ◌%◌, None, length};
ghost use Rattle.std.specs.Option.{option_map};
ghost use Rattle.frang_base.specs.declared.limits.TheConstants.{SECTOR_BYTES, SECTOR_ENTRIES, SEGMENT_BLOCKS, SEGMENT_INODES};
ghost use Rattle.sector_bytes.specs.Blocks.{version_of};
ghost use Rattle.disk_definitions.specs.Bitmaps.{bitmap_bytes, bitmap_fields};
ghost use Rattle.disk_definitions.specs.Directories.{directory_bytes, directory_fields};
ghost use Rattle.disk_definitions.specs.Inodes.{inode_bytes};
ghost use Rattle.disk_definitions.specs.Store.{stored, entered};
ghost use Rattle.bitmap_block.specs.States.{state_number};
ghost use Rattle.disk_definitions.specs.Taken.{with_inode, with_large, with_state};
ghost use Rattle.disk_definitions.specs.Edits.Edit.{SetPlace};
ghost use Rattle.disk_definitions.specs.Written as written;
ghost use Rattle.disk_definitions.specs.Written.{edit_sector, edited_block, is_metadata, with_place};
ghost use Rattle.plan_steps.specs.Edits.{edit_of};

use crate::fields::{inode_with, place_with};
use bitmap_alloc::{mark_block, mark_inode};
use bitmap_block::BlockState;
use byteorder::{ByteOrder, LittleEndian};
use disk_definitions::{DirEntry, Inode};
use frang_base::limits::{SECTOR_ENTRIES, SEGMENT_BLOCKS, SEGMENT_INODES};
use frang_base::{Block, Sector};
use frang_layout::{Region, sector_of};
use plan_steps::Edit;

/// The sector that an edit changes.
pub(crate) fn sector_of_edit(edit: &Edit) -> Sector
    ensures { result.0 ≡ edit_sector (edit_of edit.now) }
{
    match edit {
        Edit::Inode { number, .. } => sector_of(&Region::Inode(*number)),
        Edit::Bit { number, .. } => sector_of(&Region::Segment(number / SEGMENT_INODES)),
        Edit::Use { block, .. } => sector_of(&Region::Segment(block / SEGMENT_BLOCKS)),
        Edit::Place { block, place, .. } => sector_of_place(*block, *place),
        Edit::Large { block, .. } => sector_of(&Region::Segment(*block)),
        Edit::Bytes { block, part, .. } => sector_of(&Region::Small {
            block: *block,
            part: *part,
        }),
        Edit::LargeBytes { block, part, .. } => sector_of(&Region::Large {
            block: *block,
            part: *part,
        }),
    }
}

// The sector of a directory's block in which a place lies.
fn sector_of_place(block: u32, place: u32) -> Sector
    ensures { result.0 ≡ edit_sector (SetPlace block place None) }
{
    let first = sector_of(&Region::Small { block, part: 0 });
    Sector(first.0 + u64::from(place / SECTOR_ENTRIES))
}

/// Whether an edit is of a sector with a version.
pub(crate) fn is_metadata(edit: &Edit) -> bool
    ensures { result ≡ is_metadata (edit_of edit.now) }
{
    !matches!(edit, Edit::Bytes { .. } | Edit::LargeBytes { .. })
}

/// Makes an edit in the block of its sector, whose version stays.
pub(crate) fn make(edit: &Edit, block: &mut Block)
    ensures { block.new ≡ edited_block block.old (version_of block.old) (edit_of edit.now) }
{
    match edit {
        Edit::Inode { inode, .. } => set_inode(block, inode),
        Edit::Bit { number, used } => set_bit(block, *number, *used),
        Edit::Use { block: b, state } => set_state(block, *b, *state),
        Edit::Place { place, entry, .. } => set_place(block, *place, entry),
        Edit::Large { used, .. } => set_large(block, *used),
        Edit::Bytes { bytes, .. } | Edit::LargeBytes { bytes, .. } => *block = copy_of(bytes),
    }
}

/// A copy of a block, which says how long it is.
pub(crate) fn copy_of(bytes: &Block) -> Block
    ensures same { result ≡ bytes.now }
    ensures long { length bytes.now ≡ SECTOR_BYTES }
{
    *bytes
}

// The inode's sector gets this inode, or a free one.
fn set_inode(block: &mut Block, inode: &Option<Inode>)
    ensures { block.new ≡ inode_bytes (written.inode_with (version_of block.old) (option_map stored inode.now)) }
{
    let version = LittleEndian::read_u64(block);
    inode_block::encode(&inode_with(version, inode), block);
}

// The segment has an inode in use or free.
fn set_bit(block: &mut Block, number: u32, used: bool)
    ensures { block.new ≡ bitmap_bytes (with_inode (bitmap_fields block.old) (number % SEGMENT_INODES) used) }
{
    let bitmap = bitmap_block::fields(block);
    bitmap_block::encode(&mark_inode(bitmap, number % SEGMENT_INODES, used), block);
}

// The segment has a small block in this state.
fn set_state(block: &mut Block, number: u32, state: BlockState)
    ensures { block.new ≡ bitmap_bytes (with_state (bitmap_fields block.old) (number % SEGMENT_BLOCKS) (state_number state)) }
{
    let bitmap = bitmap_block::fields(block);
    bitmap_block::encode(&mark_block(bitmap, number % SEGMENT_BLOCKS, state), block);
}

// The sector of a directory has this entry at a place of its block, or nothing.
fn set_place(block: &mut Block, place: u32, entry: &Option<DirEntry>)
    ensures { block.new ≡ directory_bytes (with_place (directory_fields block.old) (place % SECTOR_ENTRIES) (option_map entered entry.now)) }
{
    let mut sector = dir_block::fields(block);
    sector.entries[(place % SECTOR_ENTRIES) as usize] = place_with(entry);
    dir_block::encode(&sector, block);
}

// The segment has its large block in use or free.
fn set_large(block: &mut Block, used: bool)
    ensures { block.new ≡ bitmap_bytes (with_large (bitmap_fields block.old) used) }
{
    let mut bitmap = bitmap_block::fields(block);
    bitmap.large = used;
    bitmap_block::encode(&bitmap, block);
}
