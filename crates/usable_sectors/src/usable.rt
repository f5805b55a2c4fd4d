// The cached sectors whose cover is in a set of locks.
ghost use Rattle.std.specs.Prelude.{◌≡◌, None, if◌then◌else◌};
ghost use Rattle.std.specs.Option.{option_copied};
ghost use Rattle.sector_bytes.specs.SectorMaps.{value_at};
ghost use Rattle.cache_definitions.specs.Caches.{block_at};
ghost use Rattle.set_definitions.specs.Sets.{has_lock};
ghost use Rattle.set_definitions.specs.Usable.{usable};

use clerk_cache::Cache;
use frang_base::{Block, LockId, Sector};
use lock_sets::{CachedBlocks, LockSet};
use std::marker::Model;

/// The cached sectors that may be used under a set of locks: those whose cover is in the set. Contracts see the entries of them, a sector's number with its block,
/// ascending by sector. Nothing is copied.
#[derive(Drop)]
pub struct Usable<'a> {
    cache: &'a Cache,
    set: &'a LockSet,
}

impl<'a> Model for Usable<'a> {
    ghost use Rattle.usable_sectors.specs.UsableSectors.{UsableSectors};
    ghost use Rattle.set_definitions.specs.Usable.{usable};

    ghost Value = { UsableSectors };

    ghost view = { λ u. record { entries = usable u.set.now u.cache.now.entries } };
}

// The block of a cached sector, where the set has this lock.
fn block_under<'a>(
    cache: &'a Cache,
    set: &LockSet,
    lock: LockId,
    sector: Sector,
) -> Option<&'a Block>
    ensures { option_copied result ≡ (if has_lock set.now lock then block_at cache.now.entries sector.0 else None) }
{
    if set.has(lock) {
        cache.get(sector)
    } else {
        None
    }
}

// The block of a sector, where it is cached and the set has its cover.
fn shown<'a>(cache: &'a Cache, set: &LockSet, sector: Sector) -> Option<&'a Block>
    ensures { option_copied result ≡ value_at (usable set.now cache.now.entries) sector.0 }
{
    match cache.cover(sector) {
        Some(lock) => block_under(cache, set, lock, sector),
        None => None,
    }
}

impl<'a> Usable<'a> {
    /// The sectors of a cache that may be used under a set of locks. It takes no memory.
    pub fn new(cache: &'a Cache, set: &'a LockSet) -> Self
        ensures { result.entries ≡ usable set.now cache.now.entries }
    {
        Usable { cache, set }
    }

    /// The block of a sector. `None` exactly where the sector isn't cached or its cover isn't in the set. It takes time logarithmic in the number of cached sectors,
    /// and in that of the locks of the set.
    pub fn get(&self, sector: Sector) -> Option<&Block>
        ensures { option_copied result ≡ value_at self.now.entries sector.0 }
    {
        shown(self.cache, self.set, sector)
    }
}

impl<'a> CachedBlocks for Usable<'a> {
    ghost cached = { λ sectors. sectors.entries };

    fn block(&self, sector: Sector) -> Option<&Block> {
        self.get(sector)
    }
}
