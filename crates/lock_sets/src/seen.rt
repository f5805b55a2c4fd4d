// The versions of the sectors at which plans looked.
ghost use Rattle.std.specs.Prelude.{◌≡◌, [], IfOk, OnErr, OnOk};
ghost use Rattle.std.specs.Option.{option_map, unwrap_or};
ghost use Rattle.sector_bytes.specs.Blocks.{version_of};
ghost use Rattle.sector_bytes.specs.SectorMaps.{value_at};
ghost use Rattle.set_definitions.specs.Seen.{compared, first_moved, is_seen, seen_more, with_seen};
ghost use Rattle.lock_sets.specs.Seen.{BeginsWith, comparison_of, moved_of, numbers, seen_as};

use crate::cached::CachedBlocks;
use frang_base::{NoMemory, Sector};
use meta_version::version_of;
use set_definitions::Moved;
use std::alloc::{AllocError, Global};
use std::marker::Model;

/// A sector at which a plan looked, in the version that it had then.
#[derive(Clone, Copy, Debug, PartialEq, Eq)]
pub struct Seen {
    pub sector: Sector,
    pub version: u64,
}

/// The sectors at which plans looked, each once, with their versions, in the order in which they were first seen. Contracts see the list of them.
#[derive(Drop)]
pub struct SeenSectors {
    sectors: Vec<Seen>,
}

impl Model for SeenSectors {
    ghost use Rattle.std.specs.Prelude.{List, ℕ};
    ghost use Rattle.lock_sets.specs.Seen.{seen_as};

    ghost Value = { List (ℕ × ℕ) };

    ghost view = { λ seen. seen_as seen.sectors.items };
}

/// How the seen sectors stand against those that are cached, compared in their order.
#[derive(Clone, Copy, PartialEq, Eq)]
pub enum Comparison {
    /// The first that isn't as it was seen has another version: this one.
    HasMoved(Moved),
    /// The first that isn't as it was seen isn't cached.
    HasStopped,
    /// All are as they were seen.
    HasGoneThrough,
}

impl SeenSectors {
    /// None so far. It takes no memory.
    pub fn new(alloc: Global) -> Self
        ensures { result ≡ [] }
    {
        SeenSectors {
            sectors: Vec::new(alloc),
        }
    }

    /// The sectors with their versions, in the order in which they were first seen.
    pub fn as_slice(&self) -> &[Seen]
        ensures { seen_as result.now ≡ self.now }
    {
        &self.sectors
    }

    /// Whether a sector is among them.
    pub fn has(&self, sector: Sector) -> bool
        ensures { result ≡ is_seen self.now sector.0 }
    {
        is_among(&self.sectors, sector)
    }

    /// A sector is seen, behind the others, with its cached version, where it isn't seen yet; with version 0 where it isn't cached. After `NoMemory` they are as
    /// before.
    pub fn add<C: CachedBlocks>(&mut self, sectors: &C, sector: Sector) -> Result<(), NoMemory>
        ensures ok { OnOk result (self.new ≡ with_seen (C.cached sectors.now) self.old sector.0) }
        ensures err { OnErr result (self.new ≡ self.old) }
    {
        if self.has(sector) {
            return Ok(());
        }
        self.sectors.push(Seen {
            sector,
            version: version_at(sectors, sector),
        })?;
        Ok(())
    }

    /// These sectors are seen, one after another. After `NoMemory` they are as before.
    pub fn add_all<C: CachedBlocks>(
        &mut self,
        sectors: &C,
        looked: &[Sector],
    ) -> Result<(), NoMemory>
        ensures ok { OnOk result (self.new ≡ seen_more (C.cached sectors.now) self.old (numbers looked.now)) }
        ensures err { OnErr result (self.new ≡ self.old) }
    {
        let before = self.sectors.len();
        let added = self.add_each(sectors, looked);
        if added.is_err() {
            self.sectors.truncate(before);
        }
        added
    }

    /// What is seen once these sectors are, beside what is seen now.
    pub fn with_more<C: CachedBlocks>(
        &self,
        sectors: &C,
        looked: &[Sector],
    ) -> Result<Self, NoMemory>
        ensures { IfOk result (λ seen. seen ≡ seen_more (C.cached sectors.now) self.now (numbers looked.now)) }
    {
        let mut more = self.try_copy()?;
        more.add_each(sectors, looked)?;
        Ok(more)
    }

    /// The same sectors, seen in the same versions.
    pub fn try_copy(&self) -> Result<Self, NoMemory>
        ensures { IfOk result (λ seen. seen ≡ self.now) }
    {
        Ok(self.clone()?)
    }

    /// How they stand against the sectors that are cached now, compared in their order. `HasMoved` names the first that has another version, where all before it
    /// are cached as they were seen, with the version that was seen and the one that is cached. It takes no memory.
    pub fn compare<C: CachedBlocks>(&self, sectors: &C) -> Comparison
        ensures is { comparison_of result ≡ compared self.now (C.cached sectors.now) }
        ensures moved { moved_of result ≡ first_moved self.now (C.cached sectors.now) }
    {
        compare(&self.sectors, sectors)
    }

    // The sectors are seen, as far as there is memory for them.
    fn add_each<C: CachedBlocks>(&mut self, sectors: &C, looked: &[Sector]) -> Result<(), NoMemory>
        ensures ok { OnOk result (self.new ≡ seen_more (C.cached sectors.now) self.old (numbers looked.now)) }
        ensures behind { BeginsWith self.old self.new }
    {
        for sector in looked {
            self.add(sectors, *sector)?;
        }
        Ok(())
    }
}

impl Clone for SeenSectors {
    ghost is_clone = { λ a b. a ≡ b };

    fn clone(&self) -> Result<SeenSectors, AllocError> {
        Ok(SeenSectors {
            sectors: self.sectors.clone()?,
        })
    }
}

// Whether a sector is one of these.
fn is_among(seen: &[Seen], sector: Sector) -> bool
    ensures { result ≡ is_seen (seen_as seen.now) sector.0 }
{
    for one in seen {
        if one.sector.0 == sector.0 {
            return true;
        }
    }
    false
}

/// How these sectors stand against those that are cached now, compared in their order. `HasMoved` names the first that has another version, where all before it
/// are cached as they were seen, with the version that was seen and the one that is cached.
pub fn compare<C: CachedBlocks>(seen: &[Seen], sectors: &C) -> Comparison
    ensures is { comparison_of result ≡ compared (seen_as seen.now) (C.cached sectors.now) }
    ensures moved { moved_of result ≡ first_moved (seen_as seen.now) (C.cached sectors.now) }
{
    for one in seen {
        match sectors.block(one.sector) {
            Some(block) => {
                let found = version_of(block);
                if found != one.version {
                    return Comparison::HasMoved(Moved {
                        sector: one.sector,
                        saw: one.version,
                        found,
                    });
                }
            }
            None => return Comparison::HasStopped,
        }
    }
    Comparison::HasGoneThrough
}

// The version of a cached sector; 0 where it isn't cached.
fn version_at<C: CachedBlocks>(sectors: &C, sector: Sector) -> u64
    ensures { result ≡ unwrap_or (option_map version_of (value_at (C.cached sectors.now) sector.0)) 0 }
{
    match sectors.block(sector) {
        Some(block) => version_of(block),
        None => 0,
    }
}
