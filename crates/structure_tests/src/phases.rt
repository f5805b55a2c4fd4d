// Sets of locks sorted in place, and seen sectors rechecked against those that are cached once the locks are held.
use crate::builders::small_block;
use frang_base::{LockId, Mode, NoMemory, Sector};
use meta_version::Sectors;
use std::alloc::Global;
use std::process::Abort;
use std::test::Fail;
use two_phase::{Moved, Seen, cached_front, recheck, sort_set};

const LOG: (LockId, Mode) = (LockId::Log(4), Mode::Sole);

const SEGMENT: (LockId, Mode) = (LockId::Segment(9), Mode::Shared);

const ROOT: (LockId, Mode) = (LockId::Node(0), Mode::Shared);

const NODE: (LockId, Mode) = (LockId::Node(3), Mode::Shared);

const SOLE: (LockId, Mode) = (LockId::Node(3), Mode::Sole);

// Locks as they are found, and the set of them.
static SETS: [(&[(LockId, Mode)], &[(LockId, Mode)]); 6] = [
    (&[], &[]),
    (&[ROOT, NODE], &[ROOT, NODE]),
    (&[NODE, ROOT, SEGMENT, LOG], &[LOG, SEGMENT, ROOT, NODE]),
    (&[NODE, SOLE, ROOT, NODE], &[ROOT, SOLE]),
    (&[SOLE, NODE, SOLE], &[SOLE]),
    (&[ROOT, ROOT, ROOT], &[ROOT]),
];

#[test]
fn a_set_ascends_with_each_lock_once(rt: HostRuntime) -> Result<(), Fail> {
    for (found, sorted) in &SETS {
        let mut set = found.to_vec(rt.alloc())?;
        sort_set(&mut set);
        assert!(rt; set.as_slice() == *sorted);
    }
    Ok(())
}

// Sectors 3, 5 and 7 in versions 30, 2 and 1.
fn cached(alloc: Global) -> Result<Sectors, NoMemory> {
    let mut sectors = Sectors::new(alloc);
    sectors.set(Sector(3), small_block(30, 0))?;
    sectors.set(Sector(5), small_block(2, 0))?;
    sectors.set(Sector(7), small_block(1, 0))?;
    Ok(sectors)
}

const MOVED: Moved = Moved {
    sector: Sector(3),
    saw: 29,
    found: 30,
};

// Seen sectors with their versions, how many of them from the first on are cached, and what has moved first of these.
static SEEN: [(&[(u64, u64)], usize, Option<Moved>); 5] = [
    (&[], 0, None),
    (&[(7, 1), (3, 30), (5, 2)], 3, None),
    (&[(7, 1), (3, 29), (5, 1)], 3, Some(MOVED)),
    (&[(7, 1), (9, 0), (3, 29)], 1, None),
    (&[(3, 29), (9, 4)], 1, Some(MOVED)),
];

fn seen_of(alloc: Global, pairs: &[(u64, u64)]) -> Result<Vec<Seen>, NoMemory> {
    let mut seen = Vec::new(alloc);
    for (sector, version) in pairs {
        seen.push(Seen {
            sector: Sector(*sector),
            version: *version,
        })?;
    }
    Ok(seen)
}

fn rechecks(rt: &impl Abort, sectors: &Sectors, seen: &[Seen], count: usize, moved: Option<Moved>) {
    let front = cached_front(seen, sectors);
    assert!(rt; front.len() == count);
    assert!(rt; recheck(front, sectors).err() == moved);
}

#[test]
fn the_first_that_moved_among_those_cached_is_named(rt: HostRuntime) -> Result<(), Fail> {
    let sectors = cached(rt.alloc())?;
    for (pairs, count, moved) in &SEEN {
        let seen = seen_of(rt.alloc(), pairs)?;
        rechecks(&rt, &sectors, &seen, *count, *moved);
    }
    Ok(())
}
