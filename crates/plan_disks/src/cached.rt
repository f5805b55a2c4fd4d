// Sectors of a disk as a server has them cached.
use clerk_cache::Cache;
use frang_base::{LockId, Mode, NoMemory};
use lock_sets::LockSet;
use meta_version::Sectors;
use std::alloc::Global;
use usable_sectors::Usable;

// The lock under which all of them are cached.
const COVER: LockId = LockId::Node(0);

/// Sectors that a server has cached, all of them clean and under one lock, with a set that has this lock: each may be used.
#[derive(Drop)]
pub struct CachedDisk {
    cache: Cache,
    set: LockSet,
}

impl CachedDisk {
    /// These sectors, cached. It refuses want of memory.
    pub fn of(alloc: Global, sectors: &Sectors) -> Result<CachedDisk, NoMemory> {
        let mut set = LockSet::new(alloc);
        set.join(COVER, Mode::Sole)?;
        let cache = cache_of(alloc, sectors)?;
        Ok(CachedDisk { cache, set })
    }

    /// What plans use of them.
    pub fn usable(&self) -> Usable<'_> {
        Usable::new(&self.cache, &self.set)
    }
}

fn cache_of(alloc: Global, sectors: &Sectors) -> Result<Cache, NoMemory> {
    let mut cache = Cache::new(alloc);
    for place in 0..sectors.count() {
        if let Some((sector, block)) = sectors.at(place) {
            cache.reserve(1)?;
            cache.set_clean(sector, *block, COVER);
        }
    }
    Ok(cache)
}
