// The first place of a directory that passes a test.
ghost use Rattle.std.specs.Prelude.{◌≡◌, ◌≤◌, ◌<◌, ◌*◌, ◌/◌, ◌%◌, ℕ, IfOk, IfSome, IsTrue, length, slice_index};
ghost use Rattle.std.specs.Option.{option_map};
ghost use Rattle.frang_base.specs.declared.limits.TheConstants.{INODE_BLOCKS_MAX, SECTOR_ENTRIES, SMALL_BLOCK_SECTORS, SMALL_SECTORS_MAX};
ghost use Rattle.disk_definitions.specs.Held.{Segments};
ghost use Rattle.disk_definitions.specs.Least.{least};
ghost use Rattle.disk_definitions.specs.Directories.{directory_fits};
ghost use Rattle.disk_definitions.specs.Ask.{Got, ReadDirectory};
ghost use Rattle.disk_definitions.specs.Walks.{hit, is_named, is_vacant, search};
ghost use Rattle.dir_lookup.specs.Looked.{Adds};
ghost use Rattle.dir_lookup.specs.Looks.{looks_of};
ghost use Rattle.dir_lookup.specs.Reading.{Reads};
ghost use Rattle.dir_lookup.specs.Spots.{found_at, vacant_at};
ghost use Rattle.dir_lookup.specs.Stored.{entries_at};

use crate::sectors::entry_at;
use crate::{Looked, Need, directory_at};
use dir_block::find;
use disk_definitions::{DirEntry, DirSector, Inode};
use frang_base::Name;
use frang_base::limits::{SECTOR_ENTRIES, SMALL_BLOCK_SECTORS};
use usable_sectors::Usable;

/// An entry, and its place in its directory: by block, sector and place, 56 to a block.
#[derive(Clone, Copy, PartialEq, Eq)]
pub struct Found {
    pub place: u32,
    pub entry: DirEntry,
}

/// The first entry of this name in a directory of at most 16 blocks. `None` exactly where the name isn't there.
pub fn first_named(
    sectors: &Usable,
    directory: &Inode,
    name: &Name,
    looked: &mut Looked,
) -> Result<Option<Found>, Need>
    requires { directory.now.blocks ≤ INODE_BLOCKS_MAX }
    ensures reads { Reads (option_map found_at) (search (slice_index directory.now.small) (is_named name.now) 0 (SMALL_BLOCK_SECTORS * directory.now.blocks)) sectors.now.entries result }
    ensures looks { (held : Segments) → Adds looked.old looked.new (looks_of (search (slice_index directory.now.small) (is_named name.now) 0 (SMALL_BLOCK_SECTORS * directory.now.blocks)) sectors.now.entries held) }
{
    for j in 0..SMALL_BLOCK_SECTORS * u32::from(directory.blocks) {
        let sector = part_at(sectors, directory, j, looked)?;
        if let Some(found) = named_in(&sector, name, j) {
            return Ok(Some(found));
        }
    }
    Ok(None)
}

/// The first free place of a directory of at most 16 blocks. `None` exactly where there is none.
pub fn first_vacant(
    sectors: &Usable,
    directory: &Inode,
    looked: &mut Looked,
) -> Result<Option<u32>, Need>
    requires { directory.now.blocks ≤ INODE_BLOCKS_MAX }
    ensures reads { Reads (option_map vacant_at) (search (slice_index directory.now.small) is_vacant 0 (SMALL_BLOCK_SECTORS * directory.now.blocks)) sectors.now.entries result }
    ensures looks { (held : Segments) → Adds looked.old looked.new (looks_of (search (slice_index directory.now.small) is_vacant 0 (SMALL_BLOCK_SECTORS * directory.now.blocks)) sectors.now.entries held) }
{
    for j in 0..SMALL_BLOCK_SECTORS * u32::from(directory.blocks) {
        let sector = part_at(sectors, directory, j, looked)?;
        if let Some(place) = vacant_in(&sector, j) {
            return Ok(Some(place));
        }
    }
    Ok(None)
}

/// Sector `j` of a directory, 8 to a block.
pub fn part_at(
    sectors: &Usable,
    directory: &Inode,
    j: u32,
    looked: &mut Looked,
) -> Result<DirSector, Need>
    requires { j < SMALL_SECTORS_MAX }
    ensures reads { Reads entries_at (ReadDirectory (slice_index directory.now.small (j / SMALL_BLOCK_SECTORS)) (j % SMALL_BLOCK_SECTORS) Got) sectors.now.entries result }
    ensures fits { IfOk result (λ x. IsTrue (directory_fits x)) }
    ensures looks { (held : Segments) → Adds looked.old looked.new (looks_of (ReadDirectory (slice_index directory.now.small (j / SMALL_BLOCK_SECTORS)) (j % SMALL_BLOCK_SECTORS) Got) sectors.now.entries held) }
{
    directory_at(
        sectors,
        directory.small[(j / SMALL_BLOCK_SECTORS) as usize],
        (j % SMALL_BLOCK_SECTORS) as u8,
        looked,
    )
}

// The first entry of the name in sector `j` of a directory.
fn named_in(sector: &DirSector, name: &Name, j: u32) -> Option<Found>
    requires { j < SMALL_SECTORS_MAX }
    ensures { option_map found_at result ≡ hit (is_named name.now) j (entries_at sector.now) (least (λ r. is_named name.now (entries_at sector.now r)) SECTOR_ENTRIES) }
{
    match named_place(sector, name) {
        Some(place) => {
            let at = usize::from(place);
            Some(Found {
                place: SECTOR_ENTRIES * j + u32::from(place),
                entry: sector.entries[at],
            })
        }
        None => None,
    }
}

// The first place with the name.
fn named_place(sector: &DirSector, name: &Name) -> Option<u8>
    ensures is { result ≡ least (λ r. is_named name.now (entries_at sector.now r)) SECTOR_ENTRIES }
    ensures place { IfSome result (λ r. r < SECTOR_ENTRIES) }
{
    // By their types a name has bytes, so that no free place has it, and a sector has seven places.
    let _bytes = name.len();
    places_are_seven(&sector.entries);
    find(sector, name)
}

fn places_are_seven(entries: &[DirEntry; 7])
    ensures { length entries.now ≡ SECTOR_ENTRIES }
{}

// The first free place in sector `j` of a directory.
fn vacant_in(sector: &DirSector, j: u32) -> Option<u32>
    requires j { j < SMALL_SECTORS_MAX }
    requires fits { IsTrue (directory_fits sector.now) }
    ensures { option_map vacant_at result ≡ hit is_vacant j (entries_at sector.now) (least (λ r. is_vacant (entries_at sector.now r)) SECTOR_ENTRIES) }
{
    match vacant_place(sector) {
        Some(place) => Some(SECTOR_ENTRIES * j + place),
        None => None,
    }
}

// The first free place.
fn vacant_place(sector: &DirSector) -> Option<u32>
    requires { IsTrue (directory_fits sector.now) }
    ensures is { result ≡ least (λ r. is_vacant (entries_at sector.now r)) SECTOR_ENTRIES }
    ensures place { IfSome result (λ r. r < SECTOR_ENTRIES) }
{
    for place in 0..SECTOR_ENTRIES {
        let vacant = is_vacant(sector, place);
        if vacant {
            return Some(place);
        }
    }
    None
}

fn is_vacant(sector: &DirSector, place: u32) -> bool
    requires fits { IsTrue (directory_fits sector.now) }
    requires place { place < SECTOR_ENTRIES }
    ensures { result ≡ is_vacant (entries_at sector.now place) }
{
    match entry_at(sector, place as u8) {
        Some(_) => false,
        None => true,
    }
}
