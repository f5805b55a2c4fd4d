// The disk of an image, as a run begins on it.
ghost use Rattle.std.specs.Prelude.{◌≡◌, true, is_some};
ghost use Rattle.frang_outside.specs.Files.{NoneFell};
ghost use Rattle.sector_bytes.specs.Sectors.{sectors_of};
ghost use Rattle.disk_definitions.specs.Params.{param_in};
ghost use Rattle.image_file.specs.Images.{may_run_again};
ghost use Rattle.run_commands.specs.declared.end.RunEnd.TheVariants as end;
ghost use Rattle.run_commands.specs.Steps.{GivesOpen, OpensImage, image_end};

use crate::end::RunEnd;
use disk_definitions::{Disk, Param};
use frang_base::Sector;
use frang_outside::Files;
use image_commands::{ImageEnd, read_disk, sound_replay};
use param_block::decode;
use standing_laws::{a_disk_that_stands_is_sound, a_sound_disk_stands_for_what_is_read};
use std::alloc::Global;
use std::thread::Threads;

/// A disk once its logs are replayed, which stands for a tree, with the parameters that it has.
#[derive(Drop)]
pub struct ImageDisk {
    pub param: Param,
    pub disk: Disk,
}

// Why an image isn't read.
fn image_end(end: ImageEnd) -> RunEnd
    ensures { result ≡ image_end end }
{
    match end {
        ImageEnd::Done => RunEnd::Done,
        ImageEnd::NoMemory => RunEnd::NoMemory,
        ImageEnd::ReadFailed => RunEnd::ImageFailed,
        ImageEnd::TooLong => RunEnd::ImageTooLong,
        ImageEnd::BadImage { at, kind, sector } => RunEnd::BadImage { at, kind, sector },
        ImageEnd::Mute { said } => RunEnd::Mute { said },
        ImageEnd::WriteFailed => RunEnd::WriteFailed,
    }
}

// The end where there is no tree for which the replayed disk stands.
fn no_tree() -> RunEnd
    ensures { result ≡ end.BadImage 0 8 0 }
{
    RunEnd::BadImage {
        at: 0,
        kind: 8,
        sector: 0,
    }
}

// The disk of an image once its logs are replayed, where it stands for a tree.
fn replayed_disk<R: Threads + Sync>(rt: &R, alloc: Global, disk: Disk) -> Result<ImageDisk, RunEnd>
    requires parameters { is_some (param_in (sectors_of disk 0)) ≡ true }
    requires again { may_run_again (param_in (sectors_of disk 0)) ≡ true }
    ensures { GivesOpen disk result }
{
    a_disk_that_stands_is_sound();
    a_sound_disk_stands_for_what_is_read();
    let Some(param) = decode(&disk.get(Sector(0))) else {
        unreachable!();
    };
    match sound_replay(rt, alloc, disk) {
        Ok(Some(disk)) => {
            // That its sectors ascend, each with a whole block.
            let _count = disk.len();
            Ok(ImageDisk { param, disk })
        }
        Ok(None) => Err(no_tree()),
        Err(_) => Err(RunEnd::NoMemory),
    }
}

/// The disk of the image that a file is, once its logs are replayed, with its parameters: it stands for a tree, and another run may follow the image's.
pub(crate) fn disk_of_image<R: Threads + Sync, F: Files>(
    rt: &R,
    alloc: Global,
    name: &str,
    files: &mut F,
) -> Result<ImageDisk, RunEnd>
    ensures files { (F.state files.new).holds ≡ (F.state files.old).holds }
    ensures counts { NoneFell (F.state files.old) (F.state files.new) }
    ensures outcome { OpensImage (F.state files.old) (F.state files.new) name.now result }
{
    match read_disk(alloc, name, files) {
        Ok(disk) => replayed_disk(rt, alloc, disk),
        Err(end) => Err(image_end(end)),
    }
}
