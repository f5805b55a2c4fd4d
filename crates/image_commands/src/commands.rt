// The commands on images.
ghost use Rattle.std.specs.Prelude.{◌≡◌, List, [], true, is_some};
ghost use Rattle.frang_base.specs.declared.said.Said.{Said as TheSaid};
ghost use Rattle.std.specs.Option.{option_map};
ghost use Rattle.sector_bytes.specs.Sectors.{sectors_of};
ghost use Rattle.disk_definitions.specs.Params.{param_in};
ghost use Rattle.report_definitions.specs.Laws.{StandsForSome};
ghost use Rattle.image_commands.specs.declared.end.ImageEnd.TheVariants as end;
ghost use Rattle.image_commands.specs.Saying.{Says};
ghost use Rattle.image_commands.specs.Lines.{EndsWithTree, IsCheck, IsLog, IsTree};
ghost use Rattle.image_commands.specs.Ends.{Ends, EndsRecovery, EndsTold, OnlySaves};
ghost use Rattle.image_commands.specs.Steps.{RecoversDisk, SavesAfter, SavesDisk, SaysAndSaves, SaysTold, TellsDisk};

use crate::end::ImageEnd;
use crate::lines::{Recovery, check_said, log_said, recovery_of, sound_replay};
use crate::read::read_disk;
use crate::say::{say_all, say_tree};
use disk_definitions::Disk;
use frang_base::{NoMemory, Said};
use frang_outside::{FileFault, Files, Outside};
use image_file::write_image;
use std::alloc::Global;
use std::thread::Threads;

// The end where there is no tree for which the replayed disk stands.
fn no_tree() -> ImageEnd
    ensures { result ≡ end.BadImage 0 8 0 }
{
    ImageEnd::BadImage {
        at: 0,
        kind: 8,
        sector: 0,
    }
}

// Says the lines of a disk.
fn say_told<O: Outside>(alloc: Global, lines: Result<Vec<Said>, NoMemory>, out: &mut O) -> ImageEnd
    requires { Says (O.state out.old).acts [] }
    ensures { SaysTold (O.state out.old) (O.state out.new) lines result }
{
    match lines {
        Ok(lines) => say_all(alloc, &lines, out),
        Err(_) => ImageEnd::NoMemory,
    }
}

// Says the lines of the tree for which a disk stands once its logs are replayed, and the end.
fn tell_disk<R: Threads + Sync, O: Outside>(
    rt: &R,
    alloc: Global,
    disk: Disk,
    out: &mut O,
) -> ImageEnd
    requires says { Says (O.state out.old).acts [] }
    requires parameters { is_some (param_in (sectors_of disk 0)) ≡ true }
    ensures { TellsDisk (O.state out.old) (O.state out.new) disk result }
{
    match sound_replay(rt, alloc, disk) {
        Ok(found) => match found {
            Some(new) => say_tree(alloc, &new, &[], out),
            None => no_tree(),
        },
        Err(_) => ImageEnd::NoMemory,
    }
}

/// Says the lines of the tree for which the disk of an image stands once its logs are replayed, and the end.
pub fn tree<R: Threads + Sync, F: Files, O: Outside>(
    rt: &R,
    alloc: Global,
    image: &str,
    files: &mut F,
    out: &mut O,
) -> ImageEnd
    requires { Says (O.state out.old).acts [] }
    ensures ends { Ends IsTree image.now (F.state files.old) (F.state files.new) (O.state out.old) (O.state out.new) result }
    ensures untouched { (F.state files.new).holds ≡ (F.state files.old).holds }
{
    match read_disk(alloc, image, files) {
        Ok(disk) => tell_disk(rt, alloc, disk, out),
        Err(end) => end,
    }
}

/// Says a line for each record of a log of an image's disk, in order, and the end. The server is any from 0 to 255.
pub fn log<F: Files, O: Outside>(
    alloc: Global,
    image: &str,
    server: u8,
    files: &mut F,
    out: &mut O,
) -> ImageEnd
    requires { Says (O.state out.old).acts [] }
    ensures ends { EndsTold (IsLog server) image.now (F.state files.old) (F.state files.new) (O.state out.old) (O.state out.new) result }
    ensures untouched { (F.state files.new).holds ≡ (F.state files.old).holds }
{
    match read_disk(alloc, image, files) {
        Ok(disk) => say_told(alloc, log_said(alloc, &disk, server), out),
        Err(end) => end,
    }
}

/// Says the report of the check of an image's disk once its logs are replayed, in one line, whether it stands for a tree or not.
pub fn fsck<R: Threads + Sync, F: Files, O: Outside>(
    rt: &R,
    alloc: Global,
    image: &str,
    files: &mut F,
    out: &mut O,
) -> ImageEnd
    requires { Says (O.state out.old).acts [] }
    ensures ends { EndsTold IsCheck image.now (F.state files.old) (F.state files.new) (O.state out.old) (O.state out.new) result }
    ensures untouched { (F.state files.new).holds ≡ (F.state files.old).holds }
{
    match read_disk(alloc, image, files) {
        Ok(disk) => say_told(alloc, check_said(rt, alloc, disk), out),
        Err(end) => end,
    }
}

// Writes the image of a disk into a file.
fn save_disk<F: Files>(alloc: Global, save: &str, disk: &Disk, files: &mut F) -> ImageEnd
    ensures { SavesDisk (F.state files.old) (F.state files.new) save.now disk.now result }
{
    let mut bytes = Vec::new(alloc);
    match write_image(disk, &mut bytes) {
        Ok(()) => {}
        Err(_) => return ImageEnd::NoMemory,
    }
    match files.write(save, &bytes) {
        Ok(()) => ImageEnd::Done,
        Err(FileFault::Failed) => ImageEnd::WriteFailed,
        Err(FileFault::TooLong) => unreachable!(),
        Err(FileFault::NoMemory) => ImageEnd::NoMemory,
    }
}

// Writes the image of a disk into a file, where all was done before.
fn save_after<F: Files>(
    alloc: Global,
    before: ImageEnd,
    save: &str,
    disk: &Disk,
    files: &mut F,
) -> ImageEnd
    ensures { SavesAfter (F.state files.old) (F.state files.new) save.now disk.now before result }
{
    match before {
        ImageEnd::Done => save_disk(alloc, save, disk, files),
        ImageEnd::NoMemory => ImageEnd::NoMemory,
        ImageEnd::ReadFailed => ImageEnd::ReadFailed,
        ImageEnd::TooLong => ImageEnd::TooLong,
        ImageEnd::BadImage { at, kind, sector } => ImageEnd::BadImage { at, kind, sector },
        ImageEnd::Mute { said } => ImageEnd::Mute { said },
        ImageEnd::WriteFailed => ImageEnd::WriteFailed,
    }
}

// Says the lines of a recovery, and then saves its disk, where a name is given.
fn say_and_save<F: Files, O: Outside>(
    alloc: Global,
    recovery: &Recovery,
    save: Option<&str>,
    files: &mut F,
    out: &mut O,
) -> ImageEnd
    requires says { Says (O.state out.old).acts [] }
    requires stands { StandsForSome (sectors_of recovery.now.disk) }
    ensures { (lines : List TheSaid) × EndsWithTree (sectors_of recovery.now.disk) recovery.now.before.items lines × SaysAndSaves (F.state files.old) (F.state files.new) (O.state out.old) (O.state out.new) lines recovery.now.disk (option_map (λ s. s.now) save.entry) result }
{
    let said = say_tree(alloc, &recovery.disk, &recovery.before, out);
    match save {
        None => said,
        Some(save) => save_after(alloc, said, save, &recovery.disk, files),
    }
}

// Says what a disk's recovery says, and then saves the replayed disk, where a name is given.
fn recover_disk<R: Threads + Sync, F: Files, O: Outside>(
    rt: &R,
    alloc: Global,
    disk: Disk,
    save: Option<&str>,
    files: &mut F,
    out: &mut O,
) -> ImageEnd
    requires says { Says (O.state out.old).acts [] }
    requires parameters { is_some (param_in (sectors_of disk 0)) ≡ true }
    ensures { RecoversDisk (F.state files.old) (F.state files.new) (O.state out.old) (O.state out.new) disk (option_map (λ s. s.now) save.entry) result }
{
    match recovery_of(rt, alloc, disk) {
        Ok(found) => match found {
            Some(recovery) => say_and_save(alloc, &recovery, save, files, out),
            None => no_tree(),
        },
        Err(_) => ImageEnd::NoMemory,
    }
}

/// Says a line for each log of an image's disk that holds a record, ascending, then the lines of the tree for which the disk stands once
/// its logs are replayed, and the end; and then saves the replayed disk, where a name is given for its image.
pub fn recover<R: Threads + Sync, F: Files, O: Outside>(
    rt: &R,
    alloc: Global,
    image: &str,
    save: Option<&str>,
    files: &mut F,
    out: &mut O,
) -> ImageEnd
    requires { Says (O.state out.old).acts [] }
    ensures ends { EndsRecovery image.now (option_map (λ s. s.now) save.entry) (F.state files.old) (F.state files.new) (O.state out.old) (O.state out.new) result }
    ensures saves { OnlySaves (option_map (λ s. s.now) save.entry) result (F.state files.old).holds (F.state files.new).holds }
{
    match read_disk(alloc, image, files) {
        Ok(disk) => recover_disk(rt, alloc, disk, save, files, out),
        Err(end) => end,
    }
}
