// Which cached sectors are shown to a line under a set of locks.
use crate::builders::small_block;
use clerk_cache::Cache;
use frang_base::{LockId, Mode, NoMemory, Sector};
use lock_sets::LockSet;
use std::alloc::Global;
use std::process::Abort;
use std::test::Fail;
use usable_sectors::Usable;

const NODE: LockId = LockId::Node(1);

const OTHER: LockId = LockId::Node(2);

const SEGMENT: LockId = LockId::Segment(0);

// The cached sectors, each with its first byte after the version and its cover.
static CACHED: [(u64, u8, LockId); 4] = [
    (3, 30, NODE),
    (4, 40, OTHER),
    (5, 50, SEGMENT),
    (6, 60, NODE),
];

// A set of locks, the sectors that are shown under it, each with its byte, and some that aren't.
struct Row {
    locks: &'static [(LockId, Mode)],
    shown: &'static [(u64, u8)],
    hidden: &'static [u64],
}

static ROWS: [Row; 4] = [
    Row {
        locks: &[],
        shown: &[],
        hidden: &[3, 4, 5, 6, 7],
    },
    Row {
        locks: &[(NODE, Mode::Shared)],
        shown: &[(3, 30), (6, 60)],
        hidden: &[4, 5, 7],
    },
    Row {
        locks: &[(OTHER, Mode::Sole), (SEGMENT, Mode::Sole)],
        shown: &[(4, 40), (5, 50)],
        hidden: &[3, 6, 7],
    },
    Row {
        locks: &[
            (LockId::Log(0), Mode::Sole),
            (LockId::Node(3), Mode::Shared),
        ],
        shown: &[],
        hidden: &[3, 4, 5, 6, 7],
    },
];

fn cached(alloc: Global) -> Result<Cache, NoMemory> {
    let mut cache = Cache::new(alloc);
    for (sector, byte, cover) in &CACHED {
        cache.reserve(1)?;
        cache.set_clean(Sector(*sector), small_block(1, *byte), *cover);
    }
    Ok(cache)
}

fn are_shown(usable: &Usable<'_>, shown: &[(u64, u8)]) -> bool {
    for (sector, byte) in shown {
        if usable.get(Sector(*sector)) != Some(&small_block(1, *byte)) {
            return false;
        }
    }
    true
}

fn are_hidden(usable: &Usable<'_>, hidden: &[u64]) -> bool {
    for sector in hidden {
        if usable.get(Sector(*sector)).is_some() {
            return false;
        }
    }
    true
}

// The row is as the cache shows it.
fn holds(alloc: Global, cache: &Cache, row: &Row) -> Result<bool, NoMemory> {
    let mut set = LockSet::new(alloc);
    set.join_all(row.locks)?;
    let usable = Usable::new(cache, &set);
    Ok(are_shown(&usable, row.shown) && are_hidden(&usable, row.hidden))
}

#[test]
fn a_sector_is_shown_where_its_cover_is_in_the_set(rt: HostRuntime) -> Result<(), Fail> {
    let alloc = rt.alloc();
    let cache = cached(alloc)?;
    for (place, row) in ROWS.iter().enumerate() {
        let is_so = holds(alloc, &cache, row)?;
        assert!(rt; is_so, "row {place}");
    }
    Ok(())
}
