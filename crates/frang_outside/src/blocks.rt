// Sectors in memory.
ghost use Rattle.std.specs.Prelude.{◌≡◌, [], OnOk, OnErr};
ghost use Rattle.frang_outside.specs.Disk.{written};
ghost use Rattle.sector_bytes.specs.Sectors.{SameSectors, sectors_of};

use frang_base::{Block, NoMemory, Sector};
use sector_bytes::zero_block;
use std::alloc::Global;
use std::collections::BTreeMap;
use std::marker::Model;

/// The sectors that were written, seen as the list of their addresses and bytes. All others are
/// zero. A look-up takes time logarithmic in their number.
#[derive(Drop)]
pub(crate) struct Blocks {
    blocks: BTreeMap<u64, Block>,
}

impl Model for Blocks {
    ghost use Rattle.std.specs.Prelude.{List, ℕ};

    ghost Value = { List (ℕ × List ℕ) };

    ghost view = { λ b. b.blocks.entries };
}

impl Blocks {
    /// All sectors are zero. It takes no memory.
    pub(crate) fn new(alloc: Global) -> Self
        ensures { result ≡ [] }
    {
        Blocks {
            blocks: BTreeMap::new(alloc),
        }
    }

    /// A sector's bytes.
    pub(crate) fn get(&self, sector: Sector) -> Block
        ensures { result ≡ sectors_of self.now sector.0 }
    {
        match self.blocks.get(&sector.0) {
            Some(block) => *block,
            None => zero_block(),
        }
    }

    /// Writes a sector. After `NoMemory` all are as before.
    pub(crate) fn set(&mut self, sector: Sector, bytes: Block) -> Result<(), NoMemory>
        ensures ok { OnOk result
            (SameSectors (sectors_of self.new) (written (sectors_of self.old) sector.0 bytes)) }
        ensures err { OnErr result (self.new ≡ self.old) }
    {
        self.blocks.insert(sector.0, bytes)?;
        Ok(())
    }
}
