// The bytes of a file, read sector by sector.
ghost use Rattle.std.specs.Prelude.{◌≡◌, ◌≤◌, ◌<◌, ◌+◌, ◌*◌, true, min, OnOk, IfOk};
ghost use Rattle.disk_definitions.specs.Inodes.{is_file_inode};
ghost use Rattle.disk_definitions.specs.Store.{stored};
ghost use Rattle.standing_laws.specs.ReadTree.{byte_at, cells_to};
ghost use Rattle.disk_reading.specs.Files as files;
ghost use Rattle.disk_reading.specs.Seen.{store_in};

use crate::decoded_disk::DecodedDisk;
use disk_definitions::Inode;
use frang_base::limits::{
    LARGE_BLOCK_SECTORS, SECTOR_BYTES, SEGMENTS_MAX, SMALL_BLOCK_SECTORS, SMALL_SECTORS_MAX,
};
use frang_base::{NoMemory, Sector};
use frang_layout::{Region, sector_of};
use std::alloc::Global;
use tree_definitions::Cells;

// The sector of a file's bytes, counted from its start.
fn data_sector(inode: &Inode, part: u32) -> Sector
    requires part { part < SMALL_SECTORS_MAX + LARGE_BLOCK_SECTORS }
    requires large { inode.now.large ≤ SEGMENTS_MAX }
    requires has { SMALL_SECTORS_MAX ≤ part → 0 < inode.now.large }
    ensures { result.0 ≡ files.data_sector (stored inode.now) part }
{
    sector_of(&if part < SMALL_SECTORS_MAX {
        Region::Small {
            block: inode.small[(part / SMALL_BLOCK_SECTORS) as usize],
            part: (part % SMALL_BLOCK_SECTORS) as u8,
        }
    } else {
        Region::Large {
            block: inode.large - 1,
            part: (part - SMALL_SECTORS_MAX) as u16,
        }
    })
}

// Adds the bytes of a sector of a file, up to its size.
fn add_sector(
    cells: &mut Cells,
    disk: &DecodedDisk<'_>,
    segments: u32,
    inode: &Inode,
    part: u32,
) -> Result<(), NoMemory>
    requires file { is_file_inode inode.now ≡ true }
    requires large { inode.now.large ≤ SEGMENTS_MAX }
    requires within { part * SECTOR_BYTES < inode.now.size }
    requires before { cells.old ≡ cells_to (byte_at (store_in segments disk.now) (stored inode.now)) (part * SECTOR_BYTES) }
    ensures { OnOk result (cells.new ≡ cells_to (byte_at (store_in segments disk.now) (stored inode.now)) (min (part * SECTOR_BYTES + SECTOR_BYTES) inode.now.size)) }
{
    let block = disk.get(data_sector(inode, part));
    let off = part as usize * SECTOR_BYTES;
    let len = SECTOR_BYTES.min(inode.size as usize - off);
    cells.overwrite(off, &block[..len])?;
    Ok(())
}

/// The bytes of a file.
pub(crate) fn read_cells(
    alloc: Global,
    disk: &DecodedDisk<'_>,
    segments: u32,
    inode: &Inode,
) -> Result<Cells, NoMemory>
    requires file { is_file_inode inode.now ≡ true }
    requires large { inode.now.large ≤ SEGMENTS_MAX }
    ensures { IfOk result (λ cells. cells ≡ cells_to (byte_at (store_in segments disk.now) (stored inode.now)) inode.now.size) }
{
    let mut cells = Cells::new(alloc);
    let parts = (inode.size as usize + (SECTOR_BYTES - 1)) / SECTOR_BYTES;
    for part in 0..parts {
        add_sector(&mut cells, disk, segments, inode, part as u32)?;
    }
    Ok(cells)
}
