// Files in memory.
ghost use Rattle.std.specs.Prelude.{◌≡◌, ℕ, List, [], Some, OnOk, OnErr};
ghost use Rattle.frang_outside.specs.Files.{NoneFell, ReadOutcome, WriteOutcome};
ghost use Rattle.frang_outside.specs.MemFiles.{FilesInMemory, held, PutsFile, MemoryRead, MemoryWrite};

use crate::{FileFault, Files};
use frang_base::{NoMemory, Text};
use std::alloc::Global;
use std::collections::BTreeMap;
use std::marker::Model;

/// Files in memory, told by their names. A read fails exactly where its name isn't there; a write
/// never fails.
#[derive(Drop)]
pub struct MemFiles {
    alloc: Global,
    files: BTreeMap<Text, Text>,
    // How many reads have failed. It stands still at its type's end.
    read_faults: u64,
}

impl Model for MemFiles {
    ghost use Rattle.frang_outside.specs.MemFiles.{FilesInMemory};

    ghost Value = { FilesInMemory };

    ghost view = { λ f. record { files = f.files.entries; read_faults = f.read_faults } };
}

impl MemFiles {
    /// There are no files, and no read has failed. It takes no memory.
    pub fn new(alloc: Global) -> Self
        ensures files { result.files ≡ [] }
        ensures read_faults { result.read_faults ≡ 0 }
    {
        MemFiles {
            alloc,
            files: BTreeMap::new(alloc),
            read_faults: 0,
        }
    }

    /// Puts a file in the place of the one with this name, if there is one. After `NoMemory` all
    /// are as before.
    pub fn put_file(&mut self, name: &str, bytes: &[u8]) -> Result<(), NoMemory>
        ensures ok { OnOk result (PutsFile self.old self.new name.now bytes.now) }
        ensures err { OnErr result (self.new ≡ self.old) }
    {
        let name = Text::of(self.alloc, name.as_bytes())?;
        self.put_named(name, bytes)
    }

    // Puts a file in the place of the one with this name, if there is one.
    fn put_named(&mut self, name: Text, bytes: &[u8]) -> Result<(), NoMemory>
        ensures ok { OnOk result (PutsFile self.old self.new name bytes.now) }
        ensures err { OnErr result (self.new ≡ self.old) }
    {
        let bytes = Text::of(self.alloc, bytes)?;
        self.files.insert(name, bytes)?;
        Ok(())
    }
}

impl Files for MemFiles {
    ghost use Rattle.frang_outside.specs.MemFiles.{memory_files_state};

    ghost state = { memory_files_state };

    fn read(&mut self, alloc: Global, name: &str, limit: u64) -> Result<Vec<u8>, FileFault>
        ensures answer { MemoryRead self.old self.new name.now limit result }
    {
        let name = Text::of(self.alloc, name.as_bytes())?;
        match self.files.get(&name) {
            Some(text) => copied_within(alloc, text, limit),
            None => {
                self.read_faults = self.read_faults.saturating_add(1);
                Err(FileFault::Failed)
            }
        }
    }

    fn write(&mut self, name: &str, bytes: &[u8]) -> Result<(), FileFault>
        ensures answer { MemoryWrite self.old self.new name.now bytes.now result }
    {
        Ok(self.put_file(name, bytes)?)
    }
}

// The bytes of a file, where they are within the limit.
fn copied_within(alloc: Global, text: &Text, limit: u64) -> Result<Vec<u8>, FileFault>
    ensures { (files : FilesInMemory) (name : List ℕ) → held files name ≡ Some text.now
        → MemoryRead files files name limit result }
{
    if text.len() as u64 > limit {
        return Err(FileFault::TooLong);
    }
    Ok(text.as_slice().to_vec(alloc)?)
}
