// Changes of blocks whose bytes were worked out by hand, and the map of sectors, while there is memory.
use crate::builders::{block_of, change_of};
use frang_base::{Block, Change, Changes, NoMemory, Sector};
use meta_version::{
    Applied, ByteWrites, SectorList, SectorMap, Sectors, apply, is_change, version_of,
};
use std::alloc::Global;
use std::process::Abort;
use std::test::Fail;

// Version 515, and then the bytes 10 to 13.
const OLD: [u8; 12] = [3, 2, 0, 0, 0, 0, 0, 0, 10, 11, 12, 13];

// Byte 8 becomes 80, and bytes 10 and 11 become 100 and 101.
static NEW: [(u16, &[u8]); 2] = [(8, &[80]), (10, &[100, 101])];

// A change of sector 6 to this version, with the new bytes.
fn change_to(alloc: Global, version: u64) -> Result<Change, NoMemory> {
    change_of(alloc, 6, version, &NEW)
}

// What becomes of a change, where it is well formed.
fn try_apply(block: &mut Block, change: &Change) -> Option<Applied> {
    if is_change(change) {
        Some(apply(block, change))
    } else {
        None
    }
}

// A change's version, what becomes of it, and the block's first bytes then.
static CHANGES: [(u64, Applied, [u8; 12]); 5] = [
    (514, Applied::Skipped, OLD),
    (515, Applied::Skipped, OLD),
    (
        516,
        Applied::Applied,
        [4, 2, 0, 0, 0, 0, 0, 0, 80, 11, 100, 101],
    ),
    (
        770,
        Applied::Applied,
        [2, 3, 0, 0, 0, 0, 0, 0, 80, 11, 100, 101],
    ),
    (
        u64::MAX,
        Applied::Applied,
        [255, 255, 255, 255, 255, 255, 255, 255, 80, 11, 100, 101],
    ),
];

#[test]
fn changes_are_made_of_older_blocks_alone(rt: HostRuntime) -> Result<(), Fail> {
    for (version, answer, bytes) in &CHANGES {
        let change = change_to(rt.alloc(), *version)?;
        let mut block = block_of(OLD);
        let is_answered = try_apply(&mut block, &change) == Some(*answer);
        assert!(rt;
            is_answered && block == block_of(*bytes),
            "version {version}"
        );
    }
    Ok(())
}

// A block's first bytes, and its version.
static VERSIONS: [([u8; 12], u64); 4] = [
    ([0, 0, 0, 0, 0, 0, 0, 0, 9, 9, 9, 9], 0),
    (OLD, 515),
    ([0, 0, 0, 0, 0, 0, 0, 1, 9, 9, 9, 9], 72_057_594_037_927_936),
    (
        [255, 255, 255, 255, 255, 255, 255, 255, 9, 9, 9, 9],
        u64::MAX,
    ),
];

#[test]
fn versions_are_read_lowest_byte_first(rt: HostRuntime) {
    for (bytes, version) in &VERSIONS {
        assert!(rt; version_of(&block_of(*bytes)) == *version);
    }
}

// A patch's place and bytes, what becomes of its change, and the last byte of a block of zeros then.
static PATCHES: [(u16, &[u8], Option<Applied>, u8); 4] = [
    (511, &[7], Some(Applied::Applied), 7),
    (511, &[7, 8], None, 0),
    (7, &[7], None, 0),
    (8, &[], None, 0),
];

// What becomes of a change of one patch, and the last byte of a block of zeros then.
fn apply_patch(alloc: Global, patch: (u16, &[u8])) -> Result<(Option<Applied>, u8), NoMemory> {
    let change = change_of(alloc, 6, 9, &[patch])?;
    let mut block = [0; 512];
    let applied = try_apply(&mut block, &change);
    Ok((applied, block[511]))
}

#[test]
fn a_patch_ends_within_its_block(rt: HostRuntime) -> Result<(), Fail> {
    for (at, bytes, answer, last) in &PATCHES {
        let applied = apply_patch(rt.alloc(), (*at, *bytes))?;
        assert!(rt; applied == (*answer, *last), "byte {at}");
    }
    Ok(())
}

// What is done with sectors, each of one byte throughout, or what they answer.
#[derive(Clone, Copy)]
enum Step {
    Set(u64, u8),
    Put(u64, u8),
    Remove(u64),
    Holds(u64, Option<u8>),
    // The sector at a place.
    At(usize, Option<u64>),
    Count(usize),
}

fn put(sectors: &mut Sectors, sector: u64, byte: u8) -> Result<(), NoMemory> {
    sectors.reserve(1)?;
    sectors.put(Sector(sector), [byte; 512]);
    Ok(())
}

fn holds(sectors: &Sectors, sector: u64, held: Option<u8>) -> bool {
    match held {
        Some(byte) => sectors.get(Sector(sector)) == Some(&[byte; 512]),
        None => sectors.get(Sector(sector)).is_none(),
    }
}

fn sector_at(sectors: &Sectors, i: usize) -> Option<u64> {
    let (sector, _) = sectors.at(i)?;
    Some(sector.0)
}

// The step is made, and answered so.
fn is_answered(sectors: &mut Sectors, step: Step) -> Result<bool, NoMemory> {
    match step {
        Step::Set(sector, byte) => sectors.set(Sector(sector), [byte; 512])?,
        Step::Put(sector, byte) => put(sectors, sector, byte)?,
        Step::Remove(sector) => sectors.remove(Sector(sector)),
        Step::Holds(sector, held) => return Ok(holds(sectors, sector, held)),
        Step::At(i, sector) => return Ok(sector_at(sectors, i) == sector),
        Step::Count(count) => return Ok(sectors.count() == count),
    }
    Ok(true)
}

static ORDERED: [Step; 13] = [
    Step::Set(9, 9),
    Step::Set(4, 4),
    Step::Put(6, 6),
    Step::At(0, Some(4)),
    Step::At(1, Some(6)),
    Step::At(2, Some(9)),
    Step::At(3, None),
    Step::Set(9, 8),
    Step::Holds(9, Some(8)),
    Step::Remove(4),
    Step::Holds(4, None),
    Step::Count(2),
    Step::At(0, Some(6)),
];

fn expect_order(rt: &impl Abort, sectors: &mut Sectors) -> Result<(), Fail> {
    for (place, step) in ORDERED.iter().enumerate() {
        assert!(rt; is_answered(sectors, *step)?, "step {place}");
    }
    Ok(())
}

#[test]
fn sectors_are_kept_in_order(rt: HostRuntime) -> Result<(), Fail> {
    let mut sectors = Sectors::new(rt.alloc());
    expect_order(&rt, &mut sectors)
}

static ENTRIES: [(u64, u8); 2] = [(4, 3), (6, 1)];

fn has_entries(map: &SectorMap<u8>) -> bool {
    map.entries() == ENTRIES.as_slice() && map.get(Sector(4)) == Some(&3)
}

fn is_map_in_order(alloc: Global) -> Result<bool, NoMemory> {
    let mut map: SectorMap<u8> = SectorMap::new(alloc);
    map.set(Sector(6), 1)?;
    map.set(Sector(4), 2)?;
    map.reserve(1)?;
    map.put(Sector(4), 3);
    let is_set = has_entries(&map);
    map.remove(Sector(6));
    Ok(is_set && map.has(Sector(4)) && !map.has(Sector(6)))
}

#[test]
fn a_map_of_sectors_is_in_order(rt: HostRuntime) -> Result<(), Fail> {
    assert!(rt; is_map_in_order(rt.alloc())?);
    Ok(())
}

// Changes a sector that is set and older than the well-formed change.
fn try_change(sectors: &mut Sectors, change: &Change) -> bool {
    let Some(block) = sectors.get(change.sector) else {
        return false;
    };
    if !is_change(change) || change.version <= version_of(block) {
        return false;
    }
    sectors.change(change);
    true
}

fn starts_with(sectors: &Sectors, sector: u64, bytes: [u8; 12]) -> bool {
    sectors.get(Sector(sector)) == Some(&block_of(bytes))
}

fn are_changed(sectors: &mut Sectors, change: &Change) -> Result<bool, NoMemory> {
    let is_made_unset = try_change(sectors, change);
    sectors.set(Sector(6), block_of(OLD))?;
    sectors.set(Sector(7), block_of(OLD))?;
    let is_made = try_change(sectors, change);
    let is_changed = starts_with(sectors, 6, [4, 2, 0, 0, 0, 0, 0, 0, 80, 11, 100, 101]);
    Ok(!is_made_unset && is_made && is_changed && starts_with(sectors, 7, OLD))
}

// A change is made once its sector is set, and changes no other.
fn is_set_sector_changed(alloc: Global) -> Result<bool, NoMemory> {
    let change = change_to(alloc, 516)?;
    let mut sectors = Sectors::new(alloc);
    are_changed(&mut sectors, &change)
}

#[test]
fn a_set_sector_is_changed(rt: HostRuntime) -> Result<(), Fail> {
    assert!(rt; is_set_sector_changed(rt.alloc())?);
    Ok(())
}

fn are_changes_given(alloc: Global) -> Result<bool, NoMemory> {
    let changes = Changes::from_vec(vec![in alloc; change_to(alloc, 516)?]?);
    let is_one = changes.as_slice().len() == 1;
    let given = changes.into_vec();
    Ok(is_one && given.len() == 1)
}

fn are_bytes_given(alloc: Global) -> Result<bool, NoMemory> {
    let bytes = ByteWrites::from_vec(vec![in alloc; (Sector(5), [5; 512])]?);
    let is_one = bytes.as_slice().len() == 1;
    let given = bytes.into_vec();
    Ok(is_one && given.len() == 1)
}

fn are_sectors_given(alloc: Global) -> Result<bool, NoMemory> {
    let sectors = SectorList::from_vec(vec![in alloc; Sector(8), Sector(9)]?);
    let are_as_they_were = sectors.as_slice() == [Sector(8), Sector(9)].as_slice();
    let given = sectors.into_vec();
    Ok(are_as_they_were && given.len() == 2)
}

#[test]
fn lists_give_their_vectors_back(rt: HostRuntime) -> Result<(), Fail> {
    assert!(rt; are_changes_given(rt.alloc())?);
    assert!(rt; are_bytes_given(rt.alloc())?);
    assert!(rt; are_sectors_given(rt.alloc())?);
    Ok(())
}
