// The disk of an outside, read sector by sector, and its image written to a file.
ghost use Rattle.std.specs.Prelude.{◌≤◌, OnOk};
ghost use Rattle.sector_bytes.specs.Sectors.{sectors_of};
ghost use Rattle.disk_saving.specs.Saving.{Keeps, Reads, ReadsDisk, Saves, Unmoved, WritesDisk};

use crate::fault::SaveFault;
use crate::place::{place_at, place_count};
use disk_definitions::Disk;
use frang_base::limits::SEGMENTS_MAX;
use frang_base::{Block, NoMemory, Sector, ServerId};
use frang_layout::sector_of;
use frang_outside::{FileFault, Files, Outside};
use image_file::write_image;
use sector_bytes::is_zero_block;
use std::alloc::Global;

// Keeps the block of a sector, which takes memory where it isn't zeros.
fn keep(disk: &mut Disk, sector: Sector, block: Block) -> Result<(), NoMemory>
    ensures { OnOk result (Keeps (sectors_of disk.old) (sectors_of disk.new) sector.0 block) }
{
    if is_zero_block(&block) {
        Ok(())
    } else {
        disk.set(sector, block)
    }
}

// Gets a sector for the host, and keeps its block.
fn read_sector<O: Outside>(out: &mut O, sector: Sector, disk: &mut Disk) -> Result<(), SaveFault>
    ensures unmoved { Unmoved (O.state out.old) (O.state out.new) }
    ensures reads { Reads (O.state out.old) (O.state out.new) (sectors_of disk.old) (sectors_of disk.new) sector.0 result }
{
    match out.get(ServerId::HOST, sector) {
        Ok(block) => {
            keep(disk, sector, block)?;
            Ok(())
        }
        Err(_) => Err(SaveFault::Failed { sector }),
    }
}

// Reads the disk of an outside that has so many segments: each sector of its regions, ascending.
fn read_disk<O: Outside>(alloc: Global, out: &mut O, segments: u32) -> Result<Disk, SaveFault>
    requires { segments ≤ SEGMENTS_MAX }
    ensures unmoved { Unmoved (O.state out.old) (O.state out.new) }
    ensures reads { ReadsDisk (O.state out.old) (O.state out.new) segments result }
{
    let mut disk = Disk::new(alloc);
    for n in 0..place_count(segments) {
        read_sector(out, sector_of(&place_at(segments, n)), &mut disk)?;
    }
    let _ascending = disk.len();
    Ok(disk)
}

// Writes the image of a disk into a file.
fn write_disk<F: Files>(
    alloc: Global,
    disk: &Disk,
    save: &str,
    files: &mut F,
) -> Result<(), SaveFault>
    ensures { WritesDisk (F.state files.old) (F.state files.new) save.now disk.now result }
{
    let mut bytes = Vec::new(alloc);
    write_image(disk, &mut bytes)?;
    match files.write(save, &bytes) {
        Ok(()) => Ok(()),
        Err(FileFault::Failed) => Err(SaveFault::WriteFailed),
        Err(FileFault::TooLong) => unreachable!(),
        Err(FileFault::NoMemory) => Err(SaveFault::NoMemory),
    }
}

/// Saves the disk of an outside that has so many segments, at most 64: the host gets each sector of its regions, ascending, and the
/// image of what they hold is written into the file. No sector and no other file changes.
///
/// After `Failed` no file has changed, and the count of the host has risen. After `WriteFailed` and `NoMemory` what the file holds is
/// unknown.
pub fn save_disk<F: Files, O: Outside>(
    alloc: Global,
    out: &mut O,
    segments: u32,
    save: &str,
    files: &mut F,
) -> Result<(), SaveFault>
    requires { segments ≤ SEGMENTS_MAX }
    ensures unmoved { Unmoved (O.state out.old) (O.state out.new) }
    ensures saves { Saves (F.state files.old) (F.state files.new) (O.state out.old) (O.state out.new) segments save.now result }
{
    let disk = read_disk(alloc, out, segments)?;
    write_disk(alloc, &disk, save, files)
}
