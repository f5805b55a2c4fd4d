// The sectors of file bytes that edits give back.
ghost use Rattle.std.specs.Prelude.{◌≡◌, [], IfOk, OnOk, fold, map};
ghost use Rattle.std.specs.List.{flat_map};
ghost use Rattle.tree_definitions.specs.Numbers.{below};
ghost use Rattle.disk_definitions.specs.Regions.{sector_of};
ghost use Rattle.disk_definitions.specs.declared.region.Region.TheVariants as region;
ghost use Rattle.bitmap_block.specs.States.{state_number};
ghost use Rattle.disk_definitions.specs.Store.{use_by};
ghost use Rattle.disk_definitions.specs.Edits.Edit.{SetLarge, SetUse};
ghost use Rattle.disk_definitions.specs.Written as written;
ghost use Rattle.disk_definitions.specs.Written.{sectors_given_back, with_number};
ghost use Rattle.dir_lookup.specs.Planned.{sector_by};
ghost use Rattle.plan_steps.specs.Edits.{edit_of, edits_of};

use bitmap_block::BlockState;
use frang_base::limits::{LARGE_BLOCK_SECTORS, SMALL_BLOCK_SECTORS};
use frang_base::{NoMemory, Sector};
use frang_layout::{Region, sector_of};
use meta_version::{SectorList, SectorMap};
use plan_steps::Edit;
use std::alloc::Global;

/// Each sector of the blocks of file bytes that the edits give back, ascending and once. Its one refusal is want of memory.
pub fn freed_sectors(alloc: Global, edits: &[Edit]) -> Result<SectorList, NoMemory>
    ensures { IfOk result (λ freed. freed ≡ map sector_by (written.freed_sectors (edits_of edits.now))) }
{
    let freed = given_back(alloc, edits)?;
    let mut sectors = Vec::new(alloc);
    for (number, _) in freed.entries() {
        sectors.push(Sector(*number))?;
    }
    Ok(SectorList::from_vec(sectors))
}

// The sectors that the edits give back, each once.
fn given_back(alloc: Global, edits: &[Edit]) -> Result<SectorMap<u8>, NoMemory>
    ensures { IfOk result (λ freed. freed.entries ≡ fold with_number [] (flat_map sectors_given_back (edits_of edits.now))) }
{
    let mut freed = SectorMap::new(alloc);
    for edit in edits {
        give_back(&mut freed, edit)?;
    }
    Ok(freed)
}

// Adds the sectors that an edit gives back.
fn give_back(freed: &mut SectorMap<u8>, edit: &Edit) -> Result<(), NoMemory>
    ensures { OnOk result (freed.new.entries ≡ fold with_number freed.old.entries (sectors_given_back (edit_of edit.now))) }
{
    match edit {
        Edit::Use { block, state } => give_small(freed, *block, *state),
        Edit::Large { block, used } => give_large(freed, *block, *used),
        _ => Ok(()),
    }
}

// Adds the sectors of a small block that becomes unused.
fn give_small(freed: &mut SectorMap<u8>, block: u32, state: BlockState) -> Result<(), NoMemory>
    ensures { OnOk result (freed.new.entries ≡ fold with_number freed.old.entries (sectors_given_back (SetUse block (use_by (state_number state))))) }
{
    match state {
        BlockState::Unused => add_small(freed, block, SMALL_BLOCK_SECTORS as u8),
        _ => Ok(()),
    }
}

// Adds the sectors of a large block that gets free.
fn give_large(freed: &mut SectorMap<u8>, block: u32, used: bool) -> Result<(), NoMemory>
    ensures { OnOk result (freed.new.entries ≡ fold with_number freed.old.entries (sectors_given_back (SetLarge block used))) }
{
    if used {
        return Ok(());
    }
    add_large(freed, block, LARGE_BLOCK_SECTORS as u16)
}

// Adds the first sectors of a small block.
fn add_small(freed: &mut SectorMap<u8>, block: u32, parts: u8) -> Result<(), NoMemory>
    ensures { OnOk result (freed.new.entries ≡ fold with_number freed.old.entries (map (λ part. sector_of (region.Small block part)) (below parts))) }
{
    for part in 0..parts {
        freed.set(sector_of(&Region::Small { block, part }), 0)?;
    }
    Ok(())
}

// Adds the first sectors of a large block.
fn add_large(freed: &mut SectorMap<u8>, block: u32, parts: u16) -> Result<(), NoMemory>
    ensures { OnOk result (freed.new.entries ≡ fold with_number freed.old.entries (map (λ part. sector_of (region.Large block part)) (below parts))) }
{
    for part in 0..parts {
        freed.set(sector_of(&Region::Large { block, part }), 0)?;
    }
    Ok(())
}
