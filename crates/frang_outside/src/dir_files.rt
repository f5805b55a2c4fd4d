// The files of the system.
ghost use Rattle.std.specs.Prelude.{◌≡◌};
ghost use Rattle.frang_outside.specs.DirFiles.{CountsFault, IsFaultOf, ReadsOpened, ReadsWhole, AnswersRead, AnswersWritten};

use crate::{FileFault, Files};
use std::alloc::Global;
use std::io::{ErrorKind, Read};
use std::marker::Model;
use std::rt::Files as SystemFiles;
use std::{fs, io};

/// The files of the system, by their paths. They tell no contents. What the system does with them
/// is trusted.
#[derive(Drop)]
pub struct DirFiles<R: SystemFiles + Drop> {
    rt: R,
    // How many reads, and how many writes, have failed. Each stands still at its type's end.
    read_faults: u64,
    write_faults: u64,
}

impl<R: SystemFiles + Drop> Model for DirFiles<R> {
    ghost use Rattle.frang_outside.specs.DirFiles.{FileFaults};

    ghost Value = { FileFaults };

    ghost view = { λ f. record { reads = f.read_faults; writes = f.write_faults } };
}

impl<R: SystemFiles + Drop> DirFiles<R> {
    /// Nothing has failed.
    pub fn new(rt: R) -> Self
        ensures reads { result.reads ≡ 0 }
        ensures writes { result.writes ≡ 0 }
    {
        DirFiles {
            rt,
            read_faults: 0,
            write_faults: 0,
        }
    }
}

impl<R: SystemFiles + Drop> Files for DirFiles<R> {
    ghost use Rattle.frang_outside.specs.DirFiles.{real_files_state};

    ghost state = { real_files_state };

    fn read(&mut self, alloc: Global, name: &str, limit: u64) -> Result<Vec<u8>, FileFault> {
        read_opened(
            alloc,
            fs::open(&self.rt, name),
            limit,
            &mut self.read_faults,
        )
    }

    fn write(&mut self, name: &str, bytes: &[u8]) -> Result<(), FileFault> {
        answer_written(fs::write(&self.rt, name, bytes), &mut self.write_faults)
    }
}

// What a read answers by how the file was opened.
fn read_opened<I: Read + Drop>(
    alloc: Global,
    opened: io::Result<I>,
    limit: u64,
    faults: &mut u64,
) -> Result<Vec<u8>, FileFault>
    ensures { ReadsOpened I.remaining opened limit faults.old faults.new result }
{
    match opened {
        Ok(input) => read_whole(alloc, input, limit, faults),
        Err(error) => Err(counted(&error, faults)),
    }
}

// All bytes that a reader has left, where these are at most `limit`. It reads no more than one byte
// past them.
fn read_whole<I: Read + Drop>(
    alloc: Global,
    input: I,
    limit: u64,
    faults: &mut u64,
) -> Result<Vec<u8>, FileFault>
    ensures { ReadsWhole (I.remaining input) limit faults.old faults.new result }
{
    let mut bytes = Vec::new(alloc);
    let mut input = input.take(limit.saturating_add(1));
    let read = input.read_to_end(&mut bytes);
    answer_read(read, bytes, limit, faults)
}

// What a read answers by how the reading to the end went, which gave these bytes.
fn answer_read(
    read: io::Result<usize>,
    bytes: Vec<u8>,
    limit: u64,
    faults: &mut u64,
) -> Result<Vec<u8>, FileFault>
    ensures { AnswersRead read bytes.items limit faults.old faults.new result }
{
    match read {
        Ok(_) if bytes.len() as u64 > limit => Err(FileFault::TooLong),
        Ok(_) => Ok(bytes),
        Err(error) => Err(counted(&error, faults)),
    }
}

// What a write answers by what the system answered.
fn answer_written(written: io::Result<()>, faults: &mut u64) -> Result<(), FileFault>
    ensures { AnswersWritten written faults.old faults.new result }
{
    match written {
        Ok(()) => Ok(()),
        Err(error) => Err(counted(&error, faults)),
    }
}

// The fault of a call that answered this error, which is counted but for want of memory.
fn counted(error: &io::Error, faults: &mut u64) -> FileFault
    ensures fault { IsFaultOf error.now result }
    ensures counts { CountsFault faults.old faults.new result }
{
    if error.kind() == ErrorKind::OutOfMemory {
        return FileFault::NoMemory;
    }
    *faults = faults.saturating_add(1);
    FileFault::Failed
}
