// An image as a disk.
ghost use Rattle.std.specs.Prelude.{◌≡◌, true, is_some, IfOk};
ghost use Rattle.frang_outside.specs.Files.{NoneFell};
ghost use Rattle.sector_bytes.specs.Sectors.{sectors_of};
ghost use Rattle.disk_definitions.specs.Params.{param_in};
ghost use Rattle.image_file.specs.Images.{may_run_again};
ghost use Rattle.image_commands.specs.Ends.{IsReadAs, first_number, sector_at};
ghost use Rattle.image_commands.specs.Steps.{GivesDisk, ReadsBytes, ReadsDisk};

use crate::end::ImageEnd;
use byteorder::{ByteOrder, LittleEndian};
use disk_definitions::Disk;
use frang_base::limits::IMAGE_BYTES_MAX;
use frang_outside::{FileFault, Files};
use image_file::{ImageRead, read_image};
use std::alloc::Global;

// The bytes of a file that may be an image.
fn read_bytes<F: Files>(alloc: Global, image: &str, files: &mut F) -> Result<Vec<u8>, ImageEnd>
    ensures files { (F.state files.new).holds ≡ (F.state files.old).holds }
    ensures counts { NoneFell (F.state files.old) (F.state files.new) }
    ensures outcome { ReadsBytes (F.state files.old) (F.state files.new) image.now result }
{
    match files.read(alloc, image, IMAGE_BYTES_MAX) {
        Ok(bytes) => Ok(bytes),
        Err(FileFault::Failed) => Err(ImageEnd::ReadFailed),
        Err(FileFault::TooLong) => Err(ImageEnd::TooLong),
        Err(FileFault::NoMemory) => Err(ImageEnd::NoMemory),
    }
}

// The number that the first bytes are.
fn first_number(bytes: &[u8]) -> Option<u64>
    ensures { result ≡ first_number bytes.now }
{
    let (number, _) = bytes.split_first_chunk::<8>()?;
    Some(LittleEndian::read_u64(number))
}

// The number at a place of the bytes, 0 where they end before.
fn sector_at(at: u64, bytes: &[u8]) -> u64
    ensures { result ≡ sector_at at bytes.now }
{
    match bytes.get(at as usize..) {
        Some(rest) => first_number(rest).unwrap_or(0),
        None => 0,
    }
}

// The disk whose image the bytes are.
fn disk_of(alloc: Global, bytes: &[u8]) -> Result<Disk, ImageEnd>
    ensures gives { GivesDisk bytes.now result }
    ensures parameters { IfOk result (λ disk. is_some (param_in (sectors_of disk 0)) ≡ true) }
    ensures again { IfOk result (λ disk. may_run_again (param_in (sectors_of disk 0)) ≡ true) }
{
    match read_image(alloc, bytes) {
        Ok(disk) => Ok(disk),
        Err(ImageRead::Bad { at, kind }) => Err(ImageEnd::BadImage {
            at,
            kind,
            sector: sector_at(at, bytes),
        }),
        Err(ImageRead::NoMemory) => Err(ImageEnd::NoMemory),
    }
}

/// The disk whose image the file is. Its first sector has parameters, whose run another may follow.
pub fn read_disk<F: Files>(alloc: Global, image: &str, files: &mut F) -> Result<Disk, ImageEnd>
    ensures files { (F.state files.new).holds ≡ (F.state files.old).holds }
    ensures counts { NoneFell (F.state files.old) (F.state files.new) }
    ensures outcome { ReadsDisk (F.state files.old) (F.state files.new) image.now result }
    ensures parameters { IfOk result (λ disk. is_some (param_in (sectors_of disk 0)) ≡ true) }
    ensures read { IfOk result (λ disk. IsReadAs (F.state files.old).holds image.now disk) }
{
    match read_bytes(alloc, image, files) {
        Ok(bytes) => disk_of(alloc, &bytes),
        Err(end) => Err(end),
    }
}
