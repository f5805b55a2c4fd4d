// A disk.
ghost use Rattle.std.specs.Prelude.{◌≡◌, ◌<◌, ◌^◌, [], OnErr, OnOk, length};
ghost use Rattle.std.specs.List.{All};
ghost use Rattle.std.specs.List.Sorted.{IsStrictlySortedBy};
ghost use Rattle.std.specs.Map.{keys_of, values_of};
ghost use Rattle.std.specs.BTreeMap.{insert_entry};
ghost use Rattle.std.specs.Ordering.{nat_cmp};
ghost use Rattle.frang_base.specs.declared.limits.TheConstants.{SECTOR_BYTES};
ghost use Rattle.sector_bytes.specs.Sectors.{sectors_of};

use frang_base::{Block, NoMemory, Sector};
use sector_bytes::zero_block;
use sqlite_items::Boxed;
use std::alloc::Global;
use std::collections::BTreeMap;
use std::marker::Model;

/// A disk, seen as the sectors that were set with their blocks, ascending; every other sector is zero.
#[derive(Drop)]
pub struct Disk {
    alloc: Global,
    blocks: BTreeMap<u64, Boxed<Block>>,
}

impl Model for Disk {
    ghost use Rattle.std.specs.Prelude.{List, ℕ, ◌≡◌, ◌<◌, ◌^◌, length};
    ghost use Rattle.std.specs.List.{All};
    ghost use Rattle.std.specs.Map.{keys_of, values_of};
    ghost use Rattle.frang_base.specs.declared.limits.TheConstants.{SECTOR_BYTES};

    ghost Value = { List (ℕ × List ℕ) };

    ghost view = { λ d. d.blocks.entries };

    ghost invariant = { λ d. All (λ sector. sector < 2 ^ 64) (keys_of d.blocks.entries) × All (λ block. length block ≡ SECTOR_BYTES) (values_of d.blocks.entries) };
}

impl Disk {
    /// A disk of zeros. It takes no memory.
    pub fn new(alloc: Global) -> Self
        ensures { result ≡ [] }
    {
        Disk {
            alloc,
            blocks: BTreeMap::new(alloc),
        }
    }

    /// The sector has this block, in place of what it had. After `NoMemory` nothing has changed.
    pub fn set(&mut self, sector: Sector, block: Block) -> Result<(), NoMemory>
        ensures ok { OnOk result (self.new ≡ insert_entry nat_cmp self.old sector.0 block) }
        ensures err { OnErr result (self.new ≡ self.old) }
    {
        let block = Boxed::new(self.alloc, block)?;
        self.blocks.insert(sector.0, block)?;
        Ok(())
    }

    /// The number of sectors that were set. They ascend, each with its block.
    pub fn len(&self) -> usize
        ensures len { result ≡ length self.now }
        ensures ascending { IsStrictlySortedBy nat_cmp (keys_of self.now) }
        ensures numbers { All (λ sector. sector < 2 ^ 64) (keys_of self.now) }
        ensures blocks { All (λ block. length block ≡ SECTOR_BYTES) (values_of self.now) }
    {
        self.blocks.len()
    }

    /// The sectors that were set with their blocks, as a map.
    pub fn as_map(&self) -> &BTreeMap<u64, Boxed<Block>>
        ensures { result.now.entries ≡ self.now }
    {
        &self.blocks
    }

    /// The block of a sector: zeros where it wasn't set.
    pub fn get(&self, sector: Sector) -> Block
        ensures { result ≡ sectors_of self.now sector.0 }
    {
        match self.blocks.get(&sector.0) {
            Some(block) => *block.get(),
            None => zero_block(),
        }
    }
}
