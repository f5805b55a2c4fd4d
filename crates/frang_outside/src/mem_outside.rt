// An outside in memory. It never fails, and tells its record.
ghost use Rattle.std.specs.Prelude.{◌≡◌, [], Ok};
ghost use Rattle.frang_outside.specs.Disk.{disk_after};
ghost use Rattle.sector_bytes.specs.Sectors.{SameSectors};
ghost use Rattle.frang_outside.specs.Outside.{Follows, GetOutcome, PutOutcome, SayOutcome};
ghost use Rattle.frang_outside.specs.MemOutside.{memory_state, MemoryPut, MemorySay};

use crate::blocks::Blocks;
use crate::{Act, Failed, Outside, Put, PutFault, SayFault, Taken};
use frang_base::{Block, Sector, ServerId, Text};
use std::alloc::Global;
use std::marker::Model;

/// An outside in memory, seen as its record: the acts so far, in their order. Its sectors are those
/// that the record leaves, and its counts of faults are 0. A call fails only for want of memory,
/// and then nothing has changed.
#[derive(Drop)]
pub struct MemOutside {
    alloc: Global,
    acts: Vec<Act>,
    blocks: Blocks,
}

impl Model for MemOutside {
    ghost use Rattle.std.specs.Prelude.{List};
    ghost use Rattle.frang_outside.specs.declared.act.Act.{Act};
    ghost use Rattle.frang_outside.specs.Disk.{disk_after};
    ghost use Rattle.sector_bytes.specs.Sectors.{SameSectors, sectors_of};

    ghost Value = { List Act };

    ghost view = { λ m. m.acts.items };

    ghost invariant = { λ m. SameSectors (sectors_of m.blocks) (disk_after m.acts.items) };
}

impl MemOutside {
    /// All sectors are zero, and the record is empty. It takes no memory.
    pub fn new(alloc: Global) -> Self
        ensures { result ≡ [] }
    {
        MemOutside {
            alloc,
            acts: Vec::new(alloc),
            blocks: Blocks::new(alloc),
        }
    }

    /// The record.
    pub fn acts(&self) -> &[Act]
        ensures { result.now ≡ self.now }
    {
        &self.acts
    }
}

#[tactic(auto, using(crate::proofs::Acts::bytes_after_all_push))]
impl Outside for MemOutside {
    ghost use Rattle.frang_outside.specs.MemOutside.{memory_state, memory_accounts};

    ghost state = { memory_state };

    ghost accounts = { memory_accounts };

    /// The sector's bytes, always.
    fn get(&mut self, _server: ServerId, sector: Sector) -> Result<Block, Failed>
        ensures answer { result ≡ Ok (disk_after self.old sector.0) }
        ensures same { self.new ≡ self.old }
    {
        Ok(self.blocks.get(sector))
    }

    /// Writes a sector. Refused only for want of memory.
    fn put(&mut self, put: &Put) -> Result<Taken, PutFault>
        ensures counts { Follows (memory_state self.old) (memory_state self.new) }
        ensures outcome { PutOutcome (memory_state self.old) (memory_state self.new)
            put.entry.now result }

        // It never fails.
        ensures answer { MemoryPut self.old self.new put.entry.now result }
    {
        self.acts.reserve(1)?;
        let taken = if put.stamp < put.now {
            Taken::Late
        } else {
            self.blocks.set(put.sector, put.bytes)?;
            Taken::Written
        };
        self.acts.push_reserved(Act::Put(*put, taken));
        Ok(taken)
    }

    /// Adds the line to the record. Refused only for want of memory.
    fn say(&mut self, line: &[u8]) -> Result<(), SayFault>
        ensures sectors { SameSectors (memory_state self.new).sectors
            (memory_state self.old).sectors }
        ensures counts { Follows (memory_state self.old) (memory_state self.new) }
        ensures outcome { SayOutcome (memory_state self.old) (memory_state self.new)
            line.now result }

        // It never fails.
        ensures answer { MemorySay self.old self.new line.now result }
    {
        let text = Text::of(self.alloc, line)?;
        self.acts.reserve(1)?;
        self.acts.push_reserved(Act::Said(text));
        Ok(())
    }
}
