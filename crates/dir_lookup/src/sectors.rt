// Cached sectors, decoded.
ghost use Rattle.std.specs.Prelude.{◌≡◌, ◌<◌, true, IfOk, IfSome, IsTrue};
ghost use Rattle.std.specs.List.{list_all};
ghost use Rattle.std.specs.Option.{option_map};
ghost use Rattle.frang_base.specs.declared.limits.TheConstants.{SECTOR_ENTRIES};
ghost use Rattle.sector_bytes.specs.SectorMaps.{value_at};
ghost use Rattle.disk_definitions.specs.Directories.{directory_fits, directory_in, is_free_place, name_in};
ghost use Rattle.disk_definitions.specs.Inodes.{inode_in};
ghost use Rattle.disk_definitions.specs.Store.{stored_node, entry_in, stored, entered};
ghost use Rattle.disk_definitions.specs.Held.{Segments};
ghost use Rattle.disk_definitions.specs.Ask.{Got, ReadInode, ReadDirectory};
ghost use Rattle.dir_lookup.specs.Looked.{Adds};
ghost use Rattle.dir_lookup.specs.Looks.{looks_of};
ghost use Rattle.dir_lookup.specs.Reading.{Reads, read_of, read_or_lacks};
ghost use Rattle.dir_lookup.specs.Stored.{IsProper, IsUsed, entries_at};

use crate::{Looked, Need};
use disk_definitions::{DirEntry, DirSector, Inode};
use frang_base::limits::KIND_FREE;
use frang_base::{Block, Name, Sector};
use frang_layout::{Region, sector_of};
use inode_block::decode;
use usable_sectors::Usable;

/// The block of a sector. `Need` names the sector where it isn't cached.
pub fn block_at<'a>(sectors: &'a Usable, sector: Sector) -> Result<&'a Block, Need>
    ensures { read_of (λ block. block.now) result ≡ read_or_lacks sector.0 (value_at sectors.now.entries sector.0) }
{
    sectors.get(sector).ok_or(Need(sector))
}

/// Inode `i`, where it is in use. `None` exactly where its sector is that of a free inode, or of none. The sector is looked at.
pub fn inode_at(sectors: &Usable, i: u32, looked: &mut Looked) -> Result<Option<Inode>, Need>
    ensures reads { Reads (option_map stored) (ReadInode i Got) sectors.now.entries result }
    ensures used { IfOk result (λ o. IfSome o IsUsed) }
    ensures looks { (held : Segments) → Adds looked.old looked.new (looks_of (ReadInode i Got) sectors.now.entries held) }
{
    let sector = sector_of(&Region::Inode(i));
    let block = block_at(sectors, sector)?;
    looked.add(sector);
    Ok(used_inode(block))
}

/// The inode whose sector the block is, where it is in use. `None` exactly where it is that of a free inode, or of none.
pub fn used_inode(block: &Block) -> Option<Inode>
    ensures is { option_map stored result ≡ stored_node (inode_in block.now) }
    ensures used { IfSome result IsUsed }
{
    let inode = decode(block)?;
    if inode.kind == KIND_FREE {
        None
    } else {
        Some(inode)
    }
}

/// Part `part` of a small block as a sector of a directory, which is looked at. One that is no sector of a directory has no entries.
pub fn directory_at(
    sectors: &Usable,
    block: u32,
    part: u8,
    looked: &mut Looked,
) -> Result<DirSector, Need>
    ensures reads { Reads entries_at (ReadDirectory block part Got) sectors.now.entries result }
    ensures fits { IfOk result (λ x. IsTrue (directory_fits x)) }
    ensures looks { (held : Segments) → Adds looked.old looked.new (looks_of (ReadDirectory block part Got) sectors.now.entries held) }
{
    let sector = sector_of(&Region::Small { block, part });
    let bytes = block_at(sectors, sector)?;
    looked.add(sector);
    Ok(entries_of(bytes))
}

// The sector of a directory that a block is, or one without entries.
fn entries_of(block: &Block) -> DirSector
    ensures is { entries_at result ≡ entry_in (directory_in block.now) }
    ensures fits { IsTrue (directory_fits result) }
{
    match dir_block::decode(block) {
        Some(sector) => sector,
        None => no_entries(),
    }
}

// Seven free places.
fn no_entries() -> DirSector
    ensures free { list_all is_free_place result.entries ≡ true }
    ensures fits { IsTrue (directory_fits result) }
{
    let free = DirEntry {
        inode: 0,
        len: 0,
        kind: KIND_FREE,
        name: [0; 64],
    };
    DirSector {
        version: 0,
        entries: [free; 7],
    }
}

/// The entry at a place of a sector, 0 to 6. `None` exactly where the place is free.
pub fn entry_at(sector: &DirSector, place: u8) -> Option<DirEntry>
    requires fits { IsTrue (directory_fits sector.now) }
    requires place { place < SECTOR_ENTRIES }
    ensures is { option_map entered result ≡ entries_at sector.now place }
    ensures proper { IfSome result IsProper }
{
    let entry = sector.entries[usize::from(place)];
    if entry.kind == KIND_FREE {
        None
    } else {
        Some(entry)
    }
}

/// The name of an entry in use.
pub fn name_of(entry: &DirEntry) -> Name
    requires { IsProper entry.now }
    ensures { result ≡ name_in entry.now }
{
    match Name::of(&entry.name[..usize::from(entry.len)]) {
        Some(name) => name,
        None => unreachable!(),
    }
}
