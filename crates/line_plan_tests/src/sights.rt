// What a line is planned over by its set, and which bitmap it lacks, on a disk of three segments of which the bitmaps of two are cached.
use bitmap_block::encode;
use clerk_cache::Cache;
use frang_base::{Bitmap, Block, Held, LockId, Mode, NoMemory};
use frang_layout::{Region, sector_of};
use line_sight::{first_missing, is_missing_at, sight_of};
use lock_sets::LockSet;
use std::alloc::Global;
use std::process::Abort;
use std::test::Fail;
use usable_sectors::Usable;

const DISK_SEGMENTS: u32 = 3;

const CACHED: [u32; 2] = [0, 2];

// The segments in a set, the first whose bitmap lacks, those that are held, and whether these are said to be all.
struct Row {
    segments: &'static [u32],
    missing: Option<u32>,
    held: &'static [u32],
    all: bool,
}

static ROWS: [Row; 5] = [
    Row {
        segments: &[],
        missing: None,
        held: &[],
        all: false,
    },
    Row {
        segments: &[0],
        missing: None,
        held: &[0],
        all: false,
    },
    Row {
        segments: &[2, 0],
        missing: None,
        held: &[0, 2],
        all: false,
    },
    Row {
        segments: &[0, 1],
        missing: Some(1),
        held: &[0],
        all: false,
    },
    Row {
        segments: &[0, 1, 2],
        missing: Some(1),
        held: &[0, 2],
        all: true,
    },
];

// The bitmap of a segment in which nothing is in use.
fn bitmap_block() -> Block {
    let mut block = [0; 512];
    let bitmap = Bitmap {
        version: 1,
        inodes: 0,
        states: [0; 256],
        large: false,
    };
    encode(&bitmap, &mut block);
    block
}

fn cached(alloc: Global) -> Result<Cache, NoMemory> {
    let mut cache = Cache::new(alloc);
    for segment in CACHED {
        let sector = sector_of(&Region::Segment(segment));
        cache.reserve(1)?;
        cache.set_clean(sector, bitmap_block(), LockId::Segment(segment));
    }
    Ok(cache)
}

fn set_of(alloc: Global, segments: &[u32]) -> Result<LockSet, NoMemory> {
    let mut set = LockSet::first(alloc)?;
    for segment in segments {
        set.join(LockId::Segment(*segment), Mode::Sole)?;
    }
    Ok(set)
}

// The bitmaps of these segments are held, and no others of the disk's.
fn are_held(held: &Held, segments: &[u32]) -> bool {
    for segment in 0..DISK_SEGMENTS {
        if held.get(segment).is_some() != segments.contains(&segment) {
            return false;
        }
    }
    true
}

// Of the disk's bitmaps this one alone lacks.
fn lacks_only(set: &LockSet, cache: &Cache, missing: Option<u32>) -> bool {
    for segment in 0..DISK_SEGMENTS {
        let sector = sector_of(&Region::Segment(segment));
        if is_missing_at(set, cache, sector) != (missing == Some(segment)) {
            return false;
        }
    }
    first_missing(set, cache) == missing
}

fn holds(alloc: Global, cache: &Cache, row: &Row) -> Result<bool, NoMemory> {
    let set = set_of(alloc, row.segments)?;
    let sight = sight_of(alloc, DISK_SEGMENTS, &set, &Usable::new(cache, &set))?;
    Ok(
        lacks_only(&set, cache, row.missing)
            && are_held(&sight.held, row.held)
            && sight.all == row.all,
    )
}

#[test]
fn a_line_is_planned_over_the_bitmaps_of_its_set(rt: HostRuntime) -> Result<(), Fail> {
    let alloc = rt.alloc();
    let cache = cached(alloc)?;
    for (place, row) in ROWS.iter().enumerate() {
        let is_so = holds(alloc, &cache, row)?;
        assert!(rt; is_so, "row {place}");
    }
    Ok(())
}
