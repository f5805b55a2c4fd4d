// Sectors with their blocks, which lie apart from the numbers of the sectors.
ghost use Rattle.std.specs.Prelude.{◌≡◌, ◌+◌, ◌<◌, ◌≤◌, [], None, IsOk, IsSome, OnOk, OnErr, length, true, vec_len, vec_capacity};
ghost use Rattle.std.specs.List.{slice_get};
ghost use Rattle.std.specs.Option.{option_copied, option_map};
ghost use Rattle.sector_bytes.specs.Changes.{changed, is_change};
ghost use Rattle.sector_bytes.specs.SectorMaps.{Ascend, value_at, with_value, without, room_for};
ghost use Rattle.meta_version.specs.Updates.{IsOlder, with_change};
ghost use Rattle.meta_version.specs.Boxes.{opened};
ghost use Rattle.std.specs.Box.{box_value};

use crate::boxes::{Lay, Overwrite};
use frang_base::limits::SECTOR_BYTES;
use frang_base::{Block, Change, NoMemory, Sector};
use ordered_map::{OrderedMap, Place};
use std::alloc::Global;
use std::marker::Model;

/// Sectors with their blocks. Contracts see them as entries, a sector's number with its block, ascending by sector, and for how
/// many more there is room. A look-up and an insertion take time logarithmic in the number of entries, and what is inserted moves no
/// blocks.
pub struct Sectors {
    blocks: OrderedMap<u64, Box<Block>>,
    // Boxes for blocks to come; what they hold doesn't count.
    blank: Vec<Box<Block>>,
    alloc: Global,
}

// By one call, wherever it is dropped.
impl Drop for Sectors {
    fn drop(self) {
        let Sectors {
            blocks: _blocks,
            blank: _blank,
            alloc: _,
        } = self;
    }
}

impl Model for Sectors {
    ghost use Rattle.std.specs.Prelude.{List, ℕ, min, vec_len};
    ghost use Rattle.sector_bytes.specs.SectorMaps.{Ascend, Spacious};
    ghost use Rattle.std.specs.Box.{box_value};
    ghost use Rattle.meta_version.specs.Boxes.{opened};

    ghost Value = { Spacious (List ℕ) };

    ghost view = { λ sectors. record { entries = opened sectors.blocks.entries box_value; spare = min sectors.blocks.spare (vec_len sectors.blank) } };

    ghost invariant = { λ sectors. Ascend (opened sectors.blocks.entries box_value) };
}

// Writes a block over what the box holds.
fn overwrite(kept: &mut Box<Block>, block: &Block)
    ensures { kept.new.value ≡ block.now }
{
    **kept = *block;
}

// Adds boxes until there are `n`.
fn fill(blank: &mut Vec<Box<Block>>, alloc: Global, n: usize) -> Result<(), NoMemory>
    ensures ok { OnOk result (n ≤ vec_len blank.new) }
    ensures sure { n ≤ vec_len blank.old → IsOk result }
    ensures more { vec_len blank.old ≤ vec_len blank.new }
{
    for _ in blank.len()..n {
        blank.push(Box::new(alloc, [0; SECTOR_BYTES])?)?;
    }
    Ok(())
}

// Writes a block over that of a sector that is set.
fn write(blocks: &mut OrderedMap<u64, Box<Block>>, sector: Sector, block: Block)
    requires { IsSome (value_at blocks.old.entries sector.0) }
    ensures entries { opened blocks.new.entries box_value ≡ with_value (opened blocks.old.entries box_value) sector.0 block }
    ensures spare { blocks.new.spare ≡ blocks.old.spare }
{
    blocks.change(&sector.0, &Overwrite { block });
}

// Lays a change over the block of its sector, which is set.
fn lay_over(blocks: &mut OrderedMap<u64, Box<Block>>, change: &Change)
    requires well_formed { is_change change.now ≡ true }
    requires there { IsSome (value_at blocks.old.entries change.now.sector.0) }
    requires ordered { Ascend (opened blocks.old.entries box_value) }
    ensures entries { opened blocks.new.entries box_value ≡ with_change (opened blocks.old.entries box_value) change.now }
    ensures spare { blocks.new.spare ≡ blocks.old.spare }
{
    blocks.change(&change.sector.0, &Lay { change });
}

// Puts a box in for a sector. The box that the sector had is a blank one from now on, for which there is a place.
fn put_box(
    blocks: &mut OrderedMap<u64, Box<Block>>,
    blank: &mut Vec<Box<Block>>,
    sector: Sector,
    kept: Box<Block>,
)
    requires room { room_for blocks.old.entries sector.0 ≤ blocks.old.spare }
    requires place { vec_len blank.old < vec_capacity blank.old }
    ensures entries { blocks.new.entries ≡ with_value blocks.old.entries sector.0 kept }
    ensures spare { blocks.new.spare + room_for blocks.old.entries sector.0 ≡ blocks.old.spare }
    ensures blank { vec_len blank.new + room_for blocks.old.entries sector.0 ≡ vec_len blank.old + 1 }
{
    match blocks.replace(sector.0, kept) {
        Some(old) => match blank.push(old) {
            Ok(()) => {}
            Err(_) => unreachable!(),
        },
        None => {}
    }
}

impl Sectors {
    /// No sectors. It takes no memory.
    pub fn new(alloc: Global) -> Self
        ensures { result.entries ≡ [] }
    {
        Sectors {
            blocks: OrderedMap::new(alloc),
            blank: Vec::new(alloc),
            alloc,
        }
    }

    /// How many sectors are set.
    pub fn count(&self) -> usize
        ensures count { result ≡ length self.now.entries }
        ensures ordered { Ascend self.now.entries }
    {
        self.blocks.count()
    }

    /// The sector at a place, counted from 0 and ascending, with its block. `None` exactly where the place isn't below `count`.
    pub fn at(&self, i: usize) -> Option<(Sector, &Block)>
        ensures { option_map (λ entry. (entry.0.0, entry.1.now)) result ≡ slice_get self.now.entries i }
    {
        match self.blocks.at(i) {
            Some(entry) => Some((Sector(entry.0), &*entry.1)),
            None => None,
        }
    }

    /// The block of a sector. `None` exactly where the sector isn't set.
    pub fn get(&self, sector: Sector) -> Option<&Block>
        ensures { option_copied result ≡ value_at self.now.entries sector.0 }
    {
        match self.blocks.get(&sector.0) {
            Some(kept) => Some(&**kept),
            None => None,
        }
    }

    /// The block of a sector, and the place where the sector lies. `None` exactly where the sector isn't set.
    pub fn find(&self, sector: Sector) -> Option<(Place, &Block)>
        ensures { option_map (λ found. found.1.now) result ≡ value_at self.now.entries sector.0 }
    {
        match self.blocks.find(&sector.0) {
            Some((place, kept)) => Some((place, &**kept)),
            None => None,
        }
    }

    /// The place where the sector of the last edit was found. `None` where it went in anew.
    pub fn last_place(&self) -> Option<Place> {
        self.blocks.last_place()
    }

    /// Makes room for `n` more sectors. Nothing else changes, whatever the answer. It takes no memory where there is that room.
    pub fn reserve(&mut self, n: usize) -> Result<(), NoMemory>
        ensures entries { self.new.entries ≡ self.old.entries }
        ensures ok { OnOk result (n ≤ self.new.spare) }
        ensures sure { n ≤ self.old.spare → IsOk result }
        ensures spare { self.old.spare ≤ self.new.spare }
    {
        self.blocks.reserve(n)?;
        fill(&mut self.blank, self.alloc, n)
    }

    /// Sets a sector that is set, or for which there is room. It takes no memory.
    pub fn put(&mut self, sector: Sector, block: Block)
        requires { room_for self.old.entries sector.0 ≤ self.old.spare }
        ensures entries { self.new.entries ≡ with_value self.old.entries sector.0 block }
        ensures spare { self.new.spare + room_for self.old.entries sector.0 ≡ self.old.spare }
    {
        match self.blank.pop() {
            Some(mut kept) => {
                overwrite(&mut kept, &block);
                put_box(&mut self.blocks, &mut self.blank, sector, kept);
            }
            None => write(&mut self.blocks, sector, block),
        }
    }

    /// Sets a sector. After `NoMemory` the sectors are as before; it doesn't come where there is room.
    pub fn set(&mut self, sector: Sector, block: Block) -> Result<(), NoMemory>
        ensures ok { OnOk result (self.new.entries ≡ with_value self.old.entries sector.0 block) }
        ensures err { OnErr result (self.new.entries ≡ self.old.entries) }
        ensures sure { 0 < self.old.spare → IsOk result }
        ensures spare { self.old.spare ≤ self.new.spare + 1 }
    {
        self.reserve(1)?;
        self.put(sector, block);
        Ok(())
    }

    /// Lays a change over the block of its sector, which is set and older than the change. All other sectors stay. It takes no memory.
    pub fn change(&mut self, change: &Change)
        requires well_formed { is_change change.now ≡ true }
        requires older { IsOlder (value_at self.old.entries change.now.sector.0) change.now }
        ensures entries { self.new.entries ≡ with_change self.old.entries change.now }
        ensures spare { self.new.spare ≡ self.old.spare }
    {
        lay_over(&mut self.blocks, change);
    }

    /// The sector isn't set afterwards, and all others stay. It takes no memory.
    pub fn remove(&mut self, sector: Sector)
        ensures entries { self.new.entries ≡ without self.old.entries sector.0 }
        ensures spare { self.old.spare ≤ self.new.spare }
    {
        self.remove_near(None, sector);
    }

    /// The same, looking for the sector at a place first, and then from there on.
    pub fn remove_near(&mut self, near: Option<Place>, sector: Sector)
        ensures entries { self.new.entries ≡ without self.old.entries sector.0 }
        ensures spare { self.old.spare ≤ self.new.spare }
    {
        let _ = self.blocks.take_near(near, &sector.0);
    }
}
