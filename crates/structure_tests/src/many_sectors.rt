// Many cached sectors, of which those under a lock, or those of a list, go in one pass.
use crate::builders::small_block;
use clerk_cache::Cache;
use frang_base::{Block, LockId, NoMemory, Sector};
use std::alloc::Global;
use std::process::Abort;
use std::test::Fail;

// So many sectors are cached.
const SECTORS: u64 = 1000;

const SEGMENT: LockId = LockId::Segment(0);

const NODE: LockId = LockId::Node(1);

// The first hundred lie under a segment, and the others in turn under three nodes.
fn cover_of(sector: u64) -> LockId {
    if sector < 100 {
        SEGMENT
    } else {
        LockId::Node((sector % 3) as u32)
    }
}

fn block_of(sector: u64) -> Block {
    small_block(1, (sector % 256) as u8)
}

// Caches all of them in another order than their own.
fn fill(cache: &mut Cache) -> Result<(), NoMemory> {
    for n in 0..SECTORS {
        let sector = n.wrapping_mul(617) % SECTORS;
        cache.reserve(1)?;
        cache.set_clean(Sector(sector), block_of(sector), cover_of(sector));
    }
    Ok(())
}

// The sector is cached as it was, or it isn't cached.
fn is_kept(cache: &Cache, sector: u64, is_cached: bool) -> bool {
    let block = cache.get(Sector(sector));
    let cover = cache.cover(Sector(sector));
    if is_cached {
        block == Some(&block_of(sector)) && cover == Some(cover_of(sector))
    } else {
        block.is_none() && cover.is_none()
    }
}

fn is_under(sector: u64, locks: &[LockId]) -> bool {
    locks.contains(&cover_of(sector))
}

fn expect_dropped(rt: &impl Abort, cache: &Cache, locks: &[LockId]) {
    for sector in 0..SECTORS {
        let is_dropped = is_under(sector, locks);
        assert!(rt; is_kept(cache, sector, !is_dropped), "sector {sector}");
    }
}

fn expect_drops(rt: &impl Abort, cache: &mut Cache) -> Result<(), Fail> {
    fill(cache)?;
    assert!(rt; cache.drop_cover(NODE).is_ok());
    expect_dropped(rt, cache, &[NODE]);
    assert!(rt; cache.drop_cover(SEGMENT).is_ok());
    expect_dropped(rt, cache, &[NODE, SEGMENT]);
    Ok(())
}

#[test]
fn all_sectors_under_a_lock_are_dropped(rt: HostRuntime) -> Result<(), Fail> {
    let mut cache = Cache::new(rt.alloc());
    expect_drops(&rt, &mut cache)
}

// A run, some far apart, and a few that don't ascend, of which two aren't cached any more.
static FORGOTTEN: [Sector; 13] = [
    Sector(98),
    Sector(99),
    Sector(100),
    Sector(101),
    Sector(102),
    Sector(400),
    Sector(650),
    Sector(999),
    Sector(1000),
    Sector(7),
    Sector(400),
    Sector(500),
    Sector(0),
];

fn expect_forgotten(rt: &impl Abort, cache: &mut Cache) -> Result<(), Fail> {
    fill(cache)?;
    cache.forget_all(&FORGOTTEN);
    for sector in 0..SECTORS {
        let is_forgotten = FORGOTTEN.contains(&Sector(sector));
        assert!(rt; is_kept(cache, sector, !is_forgotten), "sector {sector}");
    }
    Ok(())
}

#[test]
fn all_sectors_of_a_list_are_forgotten(rt: HostRuntime) -> Result<(), Fail> {
    let mut cache = Cache::new(rt.alloc());
    expect_forgotten(&rt, &mut cache)
}
