// Each call of a cache while there is memory, on a few sectors, and which dirty sector may be written.
use crate::builders::{change_of, small_block};
use clerk_cache::{Cache, Dirty};
use flush_order::{Mark, may_go};
use frang_base::{Change, LockId, NoMemory, Sector};
use meta_version::{is_change, version_of};
use std::alloc::Global;
use std::process::Abort;
use std::test::Fail;

const NODE: LockId = LockId::Node(1);

const SEGMENT: LockId = LockId::Segment(0);

// A block by its version and its first byte after that.
type Small = (u8, u8);

// What is done with a cache, or what it answers, of a sector or of a lock.
#[derive(Clone, Copy)]
enum Step {
    Holds(u64, Option<Small>),
    // Of what plans read.
    Shows(u64, Small),
    IsUnder(u64, Option<LockId>),
    // All dirty sectors.
    Dirty(&'static [Mark]),
    // The next one, where the log stands so far.
    Next(u64, Option<Sector>),
    // The next one without a write in flight: of all, of file bytes, of those that stay wanted, under a lock.
    NextIdle(u64, Option<Sector>),
    NextBytes(u64, Option<Sector>),
    NextStaying(u64, Option<Sector>),
    NextUnder(LockId, u64, Option<Sector>),
    // The sector stays wanted, or a write of it is in flight.
    Stays(u64, bool),
    Flies(u64, bool),
    WantAll,
    SetFlies(u64, bool),
    IsClean(LockId, bool),
    // No sector is dirty.
    IsAllClean(bool),
    // The mark of a dirty sector.
    HasMark(u64, Option<u64>),
    // The sector is dirty, and one of file bytes.
    IsBytes(u64, bool),
    // Some dirty sector is one of file bytes.
    HasDirtyBytes(bool),
    // Bytes that the disk doesn't have, with a mark, under the node.
    SetBytes(u64, Small, u64),
    // Zeros in place of metadata, the same way.
    SetZeros(u64, u64),
    // The same by a change, which is made or not.
    Change(u64, Small, u64, bool),
    Clean(u64, Small),
    Forget(u64),
    Move(u64, LockId),
    DropCover(LockId, Result<(), Dirty>),
}

// Caches the sectors 3 and 5, clean under a node.
fn fetch(cache: &mut Cache) -> Result<(), NoMemory> {
    cache.reserve(2)?;
    cache.set_clean(Sector(5), small_block(1, 50), NODE);
    cache.reserve(1)?;
    cache.set_clean(Sector(3), small_block(1, 30), NODE);
    Ok(())
}

fn holds(cache: &Cache, sector: Sector, held: Option<Small>) -> bool {
    match held {
        Some((version, byte)) => cache.get(sector) == Some(&small_block(version, byte)),
        None => cache.get(sector).is_none(),
    }
}

fn shows(cache: &Cache, sector: Sector, shown: Small) -> bool {
    let (version, byte) = shown;
    cache.sectors().get(sector) == Some(&small_block(version, byte))
}

// Changes a sector that is cached and older than the well-formed change.
fn try_change(cache: &mut Cache, change: &Change, mark: u64) -> bool {
    let Some(block) = cache.get(change.sector) else {
        return false;
    };
    if !is_change(change) || change.version <= version_of(block) {
        return false;
    }
    cache.change(change, mark, NODE);
    true
}

// Caches bytes that the disk doesn't have, under the node.
fn set_bytes(cache: &mut Cache, sector: u64, small: Small, mark: u64) -> Result<bool, NoMemory> {
    let (version, byte) = small;
    cache.reserve(1)?;
    cache.set_bytes(Sector(sector), small_block(version, byte), mark, NODE);
    Ok(true)
}

// Caches zeros that the disk doesn't have, under the node.
fn set_zeros(cache: &mut Cache, sector: u64, mark: u64) -> Result<bool, NoMemory> {
    cache.reserve(1)?;
    cache.set_zeros(Sector(sector), mark, NODE);
    Ok(true)
}

fn clean(cache: &mut Cache, sector: u64, small: Small) -> bool {
    let (version, byte) = small;
    cache.clean(Sector(sector), &small_block(version, byte));
    true
}

fn forget(cache: &mut Cache, sector: u64) -> bool {
    cache.forget(Sector(sector));
    true
}

// Puts a cached sector under another lock.
fn try_move(cache: &mut Cache, sector: Sector, cover: LockId) -> bool {
    if cache.cover(sector).is_some() {
        cache.move_cover(sector, cover);
        true
    } else {
        false
    }
}

fn want_all(cache: &mut Cache) -> bool {
    cache.want_all();
    true
}

fn set_flies(cache: &mut Cache, sector: u64, flies: bool) -> bool {
    cache.set_flies(Sector(sector), flies);
    true
}

fn has_dirty(cache: &Cache, marks: &[Mark]) -> Result<bool, NoMemory> {
    Ok(cache.dirty()?.as_slice() == marks)
}

fn change(
    cache: &mut Cache,
    alloc: Global,
    sector: u64,
    small: Small,
    mark: u64,
) -> Result<bool, NoMemory> {
    let (version, byte) = small;
    let change = change_of(alloc, sector, u64::from(version), &[(8, &[byte])])?;
    Ok(try_change(cache, &change, mark))
}

// The step is made, and answered so.
fn is_answered(cache: &mut Cache, alloc: Global, step: Step) -> Result<bool, NoMemory> {
    Ok(match step {
        Step::Holds(sector, held) => holds(cache, Sector(sector), held),
        Step::Shows(sector, shown) => shows(cache, Sector(sector), shown),
        Step::IsUnder(sector, cover) => cache.cover(Sector(sector)) == cover,
        Step::Dirty(marks) => has_dirty(cache, marks)?,
        Step::Next(reached, next) => cache.next_dirty(reached) == next,
        Step::NextIdle(reached, next) => cache.next_idle(reached) == next,
        Step::NextBytes(reached, next) => cache.next_bytes(reached) == next,
        Step::NextStaying(reached, next) => cache.next_staying(reached) == next,
        Step::NextUnder(lock, reached, next) => cache.next_under(lock, reached) == next,
        Step::Stays(sector, is_so) => cache.stays(Sector(sector)) == is_so,
        Step::Flies(sector, is_so) => cache.flies(Sector(sector)) == is_so,
        Step::WantAll => want_all(cache),
        Step::SetFlies(sector, flies) => set_flies(cache, sector, flies),
        Step::IsClean(lock, is_so) => cache.is_clean(lock) == is_so,
        Step::IsAllClean(is_so) => cache.is_all_clean() == is_so,
        Step::HasMark(sector, mark) => cache.mark(Sector(sector)) == mark,
        Step::IsBytes(sector, is_so) => cache.is_bytes(Sector(sector)) == is_so,
        Step::HasDirtyBytes(is_so) => cache.has_dirty_bytes() == is_so,
        Step::SetBytes(sector, small, mark) => set_bytes(cache, sector, small, mark)?,
        Step::SetZeros(sector, mark) => set_zeros(cache, sector, mark)?,
        Step::Change(sector, small, mark, is_made) => {
            change(cache, alloc, sector, small, mark)? == is_made
        }
        Step::Clean(sector, small) => clean(cache, sector, small),
        Step::Forget(sector) => forget(cache, sector),
        Step::Move(sector, cover) => try_move(cache, Sector(sector), cover),
        Step::DropCover(lock, answer) => cache.drop_cover(lock) == answer,
    })
}

// The first step that isn't answered so, once the two sectors are fetched.
fn unanswered(cache: &mut Cache, alloc: Global, steps: &[Step]) -> Result<Option<usize>, NoMemory> {
    fetch(cache)?;
    for (place, step) in steps.iter().enumerate() {
        if !is_answered(cache, alloc, *step)? {
            return Ok(Some(place));
        }
    }
    Ok(None)
}

fn first_unanswered(alloc: Global, steps: &[Step]) -> Result<Option<usize>, NoMemory> {
    let mut cache = Cache::new(alloc);
    unanswered(&mut cache, alloc, steps)
}

// A cache with the two sectors answers each step.
fn expect(rt: &impl Abort, alloc: Global, steps: &[Step]) -> Result<(), Fail> {
    let place = first_unanswered(alloc, steps)?;
    assert!(rt; place.is_none(), "step {place:?}");
    Ok(())
}

static FETCHED: [Step; 7] = [
    Step::Holds(3, Some((1, 30))),
    Step::Holds(4, None),
    Step::IsUnder(5, Some(NODE)),
    Step::IsUnder(4, None),
    Step::Shows(5, (1, 50)),
    Step::Dirty(&[]),
    Step::IsClean(NODE, true),
];

#[test]
fn a_fetched_sector_is_clean(rt: HostRuntime) -> Result<(), Fail> {
    expect(&rt, rt.alloc(), &FETCHED)
}

const CHANGED: Mark = Mark {
    sector: Sector(3),
    mark: 258,
};

static WRITTEN: [Step; 8] = [
    Step::Change(3, (2, 31), 258, true),
    Step::Change(3, (2, 31), 259, false),
    Step::Dirty(&[CHANGED]),
    Step::Clean(3, (1, 30)),
    Step::IsClean(NODE, false),
    Step::Clean(3, (2, 31)),
    Step::IsClean(NODE, true),
    Step::Holds(3, Some((2, 31))),
];

#[test]
fn a_changed_sector_is_dirty_until_it_is_written(rt: HostRuntime) -> Result<(), Fail> {
    expect(&rt, rt.alloc(), &WRITTEN)
}

static DROPPED: [Step; 9] = [
    Step::SetBytes(5, (0, 51), 257),
    Step::Move(5, SEGMENT),
    Step::DropCover(SEGMENT, Err(Dirty { sector: Sector(5) })),
    Step::DropCover(NODE, Ok(())),
    Step::Holds(3, None),
    Step::Holds(5, Some((0, 51))),
    Step::Clean(5, (0, 51)),
    Step::DropCover(SEGMENT, Ok(())),
    Step::Holds(5, None),
];

#[test]
fn a_cover_is_dropped_only_clean(rt: HostRuntime) -> Result<(), Fail> {
    expect(&rt, rt.alloc(), &DROPPED)
}

const SECOND: Mark = Mark {
    sector: Sector(5),
    mark: 257,
};

static ASCENDING: [Step; 8] = [
    Step::SetBytes(5, (0, 51), 257),
    Step::SetBytes(3, (0, 31), 258),
    Step::Dirty(&[CHANGED, SECOND]),
    Step::Next(256, None),
    Step::Next(258, Some(Sector(5))),
    Step::Forget(3),
    Step::Holds(3, None),
    Step::Dirty(&[SECOND]),
];

#[test]
fn dirty_sectors_ascend(rt: HostRuntime) -> Result<(), Fail> {
    expect(&rt, rt.alloc(), &ASCENDING)
}

// Zeros, of metadata, in place of what was cached; file bytes, also of a sector that wasn't; and a change over the zeros.
static OF_BOTH_KINDS: [Step; 20] = [
    Step::HasMark(5, None),
    Step::IsBytes(5, false),
    Step::IsAllClean(true),
    Step::SetZeros(5, 257),
    Step::Holds(5, Some((0, 0))),
    Step::HasMark(5, Some(257)),
    Step::IsBytes(5, false),
    Step::SetBytes(4, (0, 41), 258),
    Step::HasMark(4, Some(258)),
    Step::IsBytes(4, true),
    Step::Move(4, SEGMENT),
    Step::IsBytes(4, true),
    Step::Change(5, (1, 51), 259, true),
    Step::HasMark(5, Some(259)),
    Step::IsBytes(5, false),
    Step::Clean(4, (0, 41)),
    Step::IsBytes(4, false),
    Step::IsAllClean(false),
    Step::Clean(5, (1, 51)),
    Step::IsAllClean(true),
];

#[test]
fn a_dirty_sector_is_one_of_bytes_or_not(rt: HostRuntime) -> Result<(), Fail> {
    expect(&rt, rt.alloc(), &OF_BOTH_KINDS)
}

// Dirty metadata is none of them; a write in flight changes nothing, nor does another lock; each counts once, until it is clean or
// forgotten.
static COUNTED: [Step; 17] = [
    Step::HasDirtyBytes(false),
    Step::SetZeros(5, 257),
    Step::HasDirtyBytes(false),
    Step::SetBytes(4, (0, 41), 258),
    Step::SetBytes(4, (0, 42), 259),
    Step::HasDirtyBytes(true),
    Step::SetFlies(4, true),
    Step::HasDirtyBytes(true),
    Step::Move(4, SEGMENT),
    Step::SetBytes(6, (0, 61), 260),
    Step::Clean(4, (0, 42)),
    Step::HasDirtyBytes(true),
    Step::Forget(6),
    Step::HasDirtyBytes(false),
    Step::IsAllClean(false),
    Step::SetBytes(4, (0, 43), 261),
    Step::HasDirtyBytes(true),
];

#[test]
fn dirty_bytes_are_counted(rt: HostRuntime) -> Result<(), Fail> {
    expect(&rt, rt.alloc(), &COUNTED)
}

// What is dirty when all is wanted stays so through a change, until it is clean or forgotten; what gets dirty afterwards doesn't.
static WANTED: [Step; 18] = [
    Step::SetZeros(5, 257),
    Step::SetBytes(4, (0, 41), 258),
    Step::NextStaying(300, None),
    Step::WantAll,
    Step::Stays(3, false),
    Step::Stays(4, true),
    Step::NextStaying(300, Some(Sector(5))),
    Step::Change(3, (2, 31), 256, true),
    Step::NextIdle(300, Some(Sector(3))),
    Step::NextStaying(300, Some(Sector(5))),
    Step::Change(5, (1, 51), 259, true),
    Step::Stays(5, true),
    Step::NextStaying(300, Some(Sector(4))),
    Step::Forget(4),
    Step::Stays(4, false),
    Step::Clean(5, (1, 51)),
    Step::Stays(5, false),
    Step::NextStaying(300, None),
];

#[test]
fn what_is_wanted_stays_so_until_it_is_clean(rt: HostRuntime) -> Result<(), Fail> {
    expect(&rt, rt.alloc(), &WANTED)
}

// A sector with a write in flight is dirty, and isn't next.
static FLYING: [Step; 17] = [
    Step::SetBytes(4, (0, 41), 258),
    Step::SetZeros(5, 257),
    Step::Move(5, SEGMENT),
    Step::NextBytes(300, Some(Sector(4))),
    Step::NextUnder(NODE, 300, Some(Sector(4))),
    Step::NextUnder(SEGMENT, 256, None),
    Step::NextUnder(SEGMENT, 257, Some(Sector(5))),
    Step::SetFlies(5, true),
    Step::Flies(5, true),
    Step::NextUnder(SEGMENT, 300, None),
    Step::NextIdle(300, Some(Sector(4))),
    Step::Next(300, Some(Sector(5))),
    Step::SetFlies(5, false),
    Step::NextIdle(300, Some(Sector(5))),
    Step::SetFlies(4, true),
    Step::Forget(4),
    Step::Flies(4, false),
];

#[test]
fn a_sector_with_a_write_in_flight_is_not_next(rt: HostRuntime) -> Result<(), Fail> {
    expect(&rt, rt.alloc(), &FLYING)
}

static DIRTY: [Mark; 2] = [
    Mark {
        sector: Sector(4),
        mark: 260,
    },
    Mark {
        sector: Sector(6),
        mark: 257,
    },
];

// How far the log stands, and which of the dirty ones goes.
static GOING: [(u64, Option<Sector>); 4] = [
    (256, None),
    (257, Some(Sector(6))),
    (259, Some(Sector(6))),
    (260, Some(Sector(4))),
];

#[test]
fn the_first_in_the_list_goes(rt: HostRuntime) {
    for (reached, goes) in &GOING {
        assert!(rt; may_go(&DIRTY, *reached) == *goes, "reached {reached}");
    }
    assert!(rt; may_go(&[], 300).is_none());
}
