// The names in a directory.
ghost use Rattle.std.specs.Prelude.{◌≡◌, ◌≤◌, ◌<◌, fold, IfOk, IfSome, IsTrue, OnOk, List, ℕ};
ghost use Rattle.std.specs.Option.{option_map};
ghost use Rattle.disk_definitions.specs.Held.{Segments};
ghost use Rattle.disk_definitions.specs.Directories.{directory_fits};
ghost use Rattle.disk_definitions.specs.Store.{stored, entered};
ghost use Rattle.disk_definitions.specs.LookPlans.{entries_of, listing};
ghost use Rattle.dir_lookup.specs.Stored.{IsProper, entries_at};
ghost use Rattle.plan_steps.specs.Looking.{Looks, UnlessNoMemory};
ghost use Rattle.op_look.specs.Looks.{ListsNames, with_name, with_place};
ghost use Rattle.std.specs.Map.{keys_of};
ghost use Rattle.frang_base.specs.declared.limits.TheConstants.{INODE_BLOCKS_MAX};

use dir_lookup::{Looked, entry_at, name_of, part_at};
use disk_definitions::{DirEntry, DirSector, Inode};
use frang_base::limits::{SECTOR_ENTRIES, SMALL_BLOCK_SECTORS};
use frang_base::{Name, NameList, NoMemory};
use plan_steps::Stop;
use std::alloc::Global;
use std::collections::BTreeMap;
use usable_sectors::Usable;

/// The names in a directory, in order of their bytes. Its sectors come to `looked`.
pub(crate) fn names_in(
    alloc: Global,
    sectors: &Usable,
    directory: &Inode,
    looked: &mut Looked,
) -> Result<NameList, Stop>
    requires { directory.now.blocks ≤ INODE_BLOCKS_MAX }
    ensures lists { (held : Segments) → ListsNames sectors.now.entries held (stored directory.now) result }
    ensures looks { (held : Segments) (touched : List ℕ) → UnlessNoMemory result (Looks sectors.now.entries held looked.old looked.new (listing touched (stored directory.now))) }
{
    let mut sorted: BTreeMap<Name, u64> = BTreeMap::new(alloc);
    for j in 0..SMALL_BLOCK_SECTORS * u32::from(directory.blocks) {
        let sector = part_at(sectors, directory, j, looked)?;
        add_names(&mut sorted, &sector)?;
    }
    let names = list_of(alloc, &sorted)?;
    Ok(names)
}

// Adds the names of a sector.
fn add_names(sorted: &mut BTreeMap<Name, u64>, sector: &DirSector) -> Result<(), NoMemory>
    requires { IsTrue (directory_fits sector.now) }
    ensures { OnOk result (sorted.new.entries ≡ fold with_name sorted.old.entries (entries_of (entries_at sector.now))) }
{
    for place in 0..SECTOR_ENTRIES as u8 {
        add_name(sorted, entry_at(sector, place))?;
    }
    Ok(())
}

// Adds the name of an entry, where there is one. The names alone count.
fn add_name(sorted: &mut BTreeMap<Name, u64>, entry: Option<DirEntry>) -> Result<(), NoMemory>
    requires { IfSome entry IsProper }
    ensures { OnOk result (sorted.new.entries ≡ with_place sorted.old.entries (option_map entered entry)) }
{
    match entry {
        Some(entry) => {
            sorted.insert(name_of(&entry), 0)?;
            Ok(())
        }
        None => Ok(()),
    }
}

// The names of a map, in their order.
fn list_of(alloc: Global, sorted: &BTreeMap<Name, u64>) -> Result<NameList, NoMemory>
    ensures { IfOk result (λ names. names ≡ keys_of sorted.now.entries) }
{
    let mut names = NameList::new(alloc);
    for name in sorted.keys() {
        names.push(name.copy())?;
    }
    Ok(names)
}
