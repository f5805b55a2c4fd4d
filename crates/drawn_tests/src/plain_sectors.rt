// Sectors with their blocks as one list that is gone through from its start, and 10,000 drawn calls of it beside the same of those in order.
use crate::blocks::{change_of, small_block};
use crate::draws::{Draws, expect_alike};
use frang_base::{Block, Change, NoMemory, Sector};
use meta_version::{Sectors, apply, is_change, version_of};
use std::alloc::Global;
use std::process::Abort;
use std::test::Fail;

// So many sectors are set at most.
const SECTORS: u64 = 16;

// The plain sectors never want memory: what is refused is refused by the others, which are then as they were.
const ROOM: usize = 32;

#[derive(Clone, Copy)]
struct Entry {
    sector: Sector,
    block: Block,
}

// The sectors, in the order in which they came.
#[derive(Drop)]
struct PlainSectors {
    entries: Vec<Entry>,
}

impl PlainSectors {
    fn get(&self, sector: Sector) -> Option<&Block> {
        for entry in &self.entries {
            if entry.sector == sector {
                return Some(&entry.block);
            }
        }
        None
    }

    fn remove(&mut self, sector: Sector) {
        self.entries.retain(|entry| entry.sector != sector);
    }

    fn set(&mut self, sector: Sector, block: Block) -> Result<(), NoMemory> {
        self.remove(sector);
        self.entries.push(Entry { sector, block })?;
        Ok(())
    }

    // How many are below a sector.
    fn below(&self, sector: Sector) -> usize {
        let mut count = 0usize;
        for entry in &self.entries {
            if entry.sector < sector {
                count = count.saturating_add(1);
            }
        }
        count
    }
}

// The sectors in order and the plain ones.
#[derive(Drop)]
struct Both {
    sectors: Sectors,
    plain: PlainSectors,
    alloc: Global,
}

impl Both {
    fn new(alloc: Global) -> Result<Both, NoMemory> {
        let entries = Vec::with_capacity(alloc, ROOM)?;
        Ok(Both {
            sectors: Sectors::new(alloc),
            plain: PlainSectors { entries },
            alloc,
        })
    }

    fn set(&mut self, sector: Sector, block: Block) -> Result<(), NoMemory> {
        self.sectors.set(sector, block)?;
        self.plain.set(sector, block)
    }

    fn put(&mut self, sector: Sector, block: Block) -> Result<(), NoMemory> {
        self.sectors.reserve(1)?;
        self.sectors.put(sector, block);
        self.plain.set(sector, block)
    }

    fn remove(&mut self, sector: Sector) {
        self.sectors.remove(sector);
        self.plain.remove(sector);
    }

    // Lays a change over a set sector that is older.
    fn change(&mut self, change: &Change) -> Result<(), NoMemory> {
        let Some(block) = self.sectors.get(change.sector) else {
            return Ok(());
        };
        if !is_change(change) || change.version <= version_of(block) {
            return Ok(());
        }
        self.sectors.change(change);
        if let Some(block) = self.plain.get(change.sector) {
            let mut block = *block;
            let _ = apply(&mut block, change);
            self.plain.set(change.sector, block)?;
        }
        Ok(())
    }

    // The two hold the same of a sector, in the same place.
    fn is_alike(&self, sector: Sector) -> bool {
        let Some(block) = self.plain.get(sector) else {
            return self.sectors.get(sector).is_none();
        };
        let at = self.plain.below(sector);
        self.sectors.get(sector) == Some(block) && self.sectors.at(at) == Some((sector, block))
    }

    fn are_alike(&self) -> bool {
        for n in 0..SECTORS {
            if !self.is_alike(Sector(n)) {
                return false;
            }
        }
        self.sectors.count() == self.plain.entries.len()
    }

    // A drawn call of both, and its sector.
    fn call(&mut self, draws: &mut Draws) -> Result<Sector, NoMemory> {
        let kind = draws.draw() % 8;
        let number = draws.draw() % SECTORS;
        let sector = Sector(number);
        let byte = (draws.draw() % 256) as u8;
        match kind {
            0 | 1 => self.set(sector, small_block(byte % 8, byte))?,
            2 | 3 => self.put(sector, small_block(byte % 8, byte))?,
            4 | 5 => self.remove(sector),
            _ => {
                let version = u64::from(byte % 16);
                let change = change_of(self.alloc, number, version, byte)?;
                self.change(&change)?;
            }
        }
        Ok(sector)
    }
}

// All calls leave both alike.
fn expect_same_calls(rt: &impl Abort, both: &mut Both) {
    let mut draws = Draws::of(1);
    for i in 1..=10_000u32 {
        let is_alike = match both.call(&mut draws) {
            Ok(sector) => both.is_alike(sector),
            Err(NoMemory) => both.are_alike(),
        };
        expect_alike(rt, is_alike, "the called sector", i);
        if i % 100 == 0 {
            expect_alike(rt, both.are_alike(), "sectors", i);
        }
    }
}

#[test]
fn the_sectors_in_order_are_the_plain_ones(rt: HostRuntime) -> Result<(), Fail> {
    let mut both = Both::new(rt.alloc())?;
    expect_same_calls(&rt, &mut both);
    Ok(())
}
