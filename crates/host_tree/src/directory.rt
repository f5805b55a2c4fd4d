// The entries of a directory, read off its sectors.
ghost use Rattle.std.specs.Prelude.{◌≡◌, ◌≤◌, ◌<◌, ◌+◌, Some, IfOk, IfSome, IsTrue, OnOk, length};
ghost use Rattle.std.specs.Option.{option_map};
ghost use Rattle.frang_base.specs.declared.limits.TheConstants.{DIRECTORY_ENTRIES_MAX, INODE_BLOCKS_MAX, SECTOR_ENTRIES};
ghost use Rattle.disk_definitions.specs.Directories.{directory_fits};
ghost use Rattle.disk_definitions.specs.Store.{entered, entry_in, stored};
ghost use Rattle.dir_lookup.specs.Stored.{IsProper};
ghost use Rattle.core_definitions.specs.Trees.{entries_from, sorted_entries};
ghost use Rattle.host_tree.specs.Listing.{listed, placed, with_place};
ghost use Rattle.host_tree.specs.Reading.{store_read};

use crate::tree_sectors::TreeSectors;
use dir_lookup::{entry_at, name_of};
use disk_definitions::{DirEntry, DirSector, Inode};
use frang_base::NoMemory;
use frang_base::limits::{KIND_DIRECTORY, SECTOR_ENTRIES, SMALL_BLOCK_SECTORS};
use std::alloc::Global;
use tree_definitions::Entries;

/// The entries of a node, none where it is no directory.
pub(crate) fn listed(
    alloc: Global,
    sectors: &TreeSectors,
    inode: &Inode,
) -> Result<Entries, NoMemory>
    requires { inode.now.blocks ≤ INODE_BLOCKS_MAX }
    ensures { IfOk result (λ entries. entries ≡ listed (store_read sectors.now.segments sectors.now.read) (stored inode.now)) }
{
    if inode.kind != KIND_DIRECTORY {
        return Ok(Entries::new(alloc));
    }
    entries_of(alloc, sectors, inode)
}

// The entries of a directory.
fn entries_of(alloc: Global, sectors: &TreeSectors, inode: &Inode) -> Result<Entries, NoMemory>
    requires { inode.now.blocks ≤ INODE_BLOCKS_MAX }
    ensures { IfOk result (λ entries. entries ≡ sorted_entries (entries_from (store_read sectors.now.segments sectors.now.read) (stored inode.now))) }
{
    let mut entries = Entries::new(alloc);
    for j in 0..SMALL_BLOCK_SECTORS * u32::from(inode.blocks) {
        add_part(&mut entries, sectors.part(inode, j))?;
    }
    Ok(entries)
}

// Adds the entries of a sector, where it is one of a directory.
fn add_part(entries: &mut Entries, part: Option<DirSector>) -> Result<(), NoMemory>
    requires room { length entries.old + SECTOR_ENTRIES ≤ DIRECTORY_ENTRIES_MAX }
    requires fits { IfSome part (λ x. IsTrue (directory_fits x)) }
    ensures is { OnOk result (entries.new ≡ placed entries.old (entry_in part) SECTOR_ENTRIES) }
    ensures few { OnOk result (length entries.new ≤ length entries.old + SECTOR_ENTRIES) }
{
    match part {
        Some(sector) => add_places(entries, &sector),
        None => Ok(()),
    }
}

// Adds the entries of a directory's sector.
fn add_places(entries: &mut Entries, sector: &DirSector) -> Result<(), NoMemory>
    requires room { length entries.old + SECTOR_ENTRIES ≤ DIRECTORY_ENTRIES_MAX }
    requires fits { IsTrue (directory_fits sector.now) }
    ensures is { OnOk result (entries.new ≡ placed entries.old (entry_in (Some sector.now)) SECTOR_ENTRIES) }
    ensures few { OnOk result (length entries.new ≤ length entries.old + SECTOR_ENTRIES) }
{
    for place in 0..SECTOR_ENTRIES {
        add_place(entries, entry_at(sector, place as u8))?;
    }
    Ok(())
}

// Adds the entry of a place, where there is one.
fn add_place(entries: &mut Entries, place: Option<DirEntry>) -> Result<(), NoMemory>
    requires room { length entries.old < DIRECTORY_ENTRIES_MAX }
    requires proper { IfSome place IsProper }
    ensures is { OnOk result (entries.new ≡ with_place entries.old (option_map entered place)) }
    ensures few { OnOk result (length entries.new ≤ length entries.old + 1) }
{
    match place {
        Some(entry) => entries.insert(name_of(&entry), u64::from(entry.inode)),
        None => Ok(()),
    }
}
