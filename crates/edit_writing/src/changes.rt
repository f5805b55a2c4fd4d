// The changes of a record.
ghost use Rattle.std.specs.Prelude.{◌≡◌, ◌+◌, ◌-◌, ◌<◌, ◌^◌, ◌&&◌, [], IfOk, IsTrue, fold, nat_le, nat_lt};
ghost use Rattle.std.specs.List.{filter_map, list_all};
ghost use Rattle.std.specs.Map.{keys_of};
ghost use Rattle.sector_bytes.specs.Blocks.{version_of};
ghost use Rattle.sector_bytes.specs.Patches.{patches_with};
ghost use Rattle.disk_definitions.specs.Held.{AreSegments};
ghost use Rattle.disk_definitions.specs.Written as written;
ghost use Rattle.disk_definitions.specs.Written.{all_edited, change_by, metadata_sector, with_number};
ghost use Rattle.plan_steps.specs.Edits.{edits_of};
ghost use Rattle.edit_writing.specs.Sectors.{HasNextVersions, at_hand, edited_at, has_next_version};

use crate::at_hand::block_at_hand;
use crate::dated::forced_in;
use crate::edited::{is_metadata, make, sector_of_edit};
use block_patches::patches_with;
use byteorder::{ByteOrder, LittleEndian};
use dir_lookup::Hand;
use frang_base::{Block, Change, Changes, NoMemory, Sector};
use meta_version::SectorMap;
use plan_steps::Edit;
use std::alloc::Global;
use std::ops::Range;

/// The changes that the edits make of the sectors at hand, ascending by sector: of each that they change the longest runs of new bytes,
/// with its next version. A sector that comes out as it was has none, but where an edit puts a dated inode there: the bytes of its time
/// count as new even where they stay. Its one refusal is want of memory. Each held segment is one of the 64 that a disk may have, and
/// each version that rises has a next one: `have_next_versions` tests it.
pub fn changes_of(alloc: Global, hand: &Hand, edits: &[Edit]) -> Result<Changes, NoMemory>
    requires segments { AreSegments hand.now.held.now }
    requires versions { HasNextVersions (at_hand hand.now) (edits_of edits.now) }
    ensures { IfOk result (λ changes. changes ≡ written.changes_of (at_hand hand.now) (edits_of edits.now)) }
{
    let numbers = edited_sectors(alloc, edits)?;
    changes_at(alloc, hand, edits, numbers.entries())
}

// The changes of these sectors.
fn changes_at(
    alloc: Global,
    hand: &Hand,
    edits: &[Edit],
    numbers: &[(u64, u8)],
) -> Result<Changes, NoMemory>
    requires segments { AreSegments hand.now.held.now }
    requires versions { IsTrue (list_all (has_next_version (at_hand hand.now)) (keys_of numbers.now)) }
    ensures { IfOk result (λ changes. changes ≡ filter_map (written.change_of (edits_of edits.now) (at_hand hand.now) (all_edited (at_hand hand.now) (edits_of edits.now))) (keys_of numbers.now)) }
{
    let mut changes = Vec::new(alloc);
    for (number, _) in numbers {
        if let Some(change) = change_of(alloc, hand, edits, Sector(*number))? {
            changes.push(change)?;
        }
    }
    Ok(Changes::from_vec(changes))
}

// The change of a sector, where one of its bytes changes or counts as changed.
fn change_of(
    alloc: Global,
    hand: &Hand,
    edits: &[Edit],
    sector: Sector,
) -> Result<Option<Change>, NoMemory>
    requires segments { AreSegments hand.now.held.now }
    requires version { IsTrue (has_next_version (at_hand hand.now) sector.0) }
    ensures { IfOk result (λ change. change ≡ written.change_of (edits_of edits.now) (at_hand hand.now) (all_edited (at_hand hand.now) (edits_of edits.now)) sector.0) }
{
    let old = block_at_hand(hand, sector);
    let new = edited(old, sector, edits);
    change_between(alloc, sector, &old, &new, &forced_in(edits, sector))
}

// The sectors with versions that the edits change, each once.
fn edited_sectors(alloc: Global, edits: &[Edit]) -> Result<SectorMap<u8>, NoMemory>
    ensures { IfOk result (λ numbers. numbers.entries ≡ fold with_number [] (filter_map metadata_sector (edits_of edits.now))) }
{
    let mut numbers = SectorMap::new(alloc);
    for edit in edits {
        if is_metadata(edit) {
            numbers.set(sector_of_edit(edit), 0)?;
        }
    }
    Ok(numbers)
}

// The block of a sector after all edits, of which some are of other sectors.
fn edited(old: Block, sector: Sector, edits: &[Edit]) -> Block
    ensures { result ≡ fold (edited_at sector.0) old (edits_of edits.now) }
{
    let mut block = old;
    for edit in edits {
        if sector_of_edit(edit) == sector {
            make(edit, &mut block);
        }
    }
    block
}

// The change that makes the new block of the old one, where they differ behind their versions or a place is forced.
fn change_between(
    alloc: Global,
    sector: Sector,
    old: &Block,
    new: &Block,
    forced: &Range<usize>,
) -> Result<Option<Change>, NoMemory>
    requires { version_of old.now < 2 ^ 64 - 1 }
    ensures { IfOk result (λ change. change ≡ change_by sector.0 (version_of old.now + 1) (patches_with (λ at. nat_le forced.now.start at && nat_lt at forced.now.end) old.now new.now)) }
{
    let patches = patches_with(alloc, old, new, forced)?;
    if patches.is_empty() {
        return Ok(None);
    }
    let version = LittleEndian::read_u64(old) + 1;
    Ok(Some(Change {
        sector,
        version,
        patches,
    }))
}
