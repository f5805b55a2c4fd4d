// The sectors that the records of a log name.
ghost use Rattle.std.specs.Prelude.{◌≡◌, ◌≤◌, ◌&&◌, ◌||◌, ℕ, [], is_some, IfOk, OnOk};
ghost use Rattle.std.specs.List.{flat_map};
ghost use Rattle.std.specs.Prelude.{map};
ghost use Rattle.frang_base.specs.Functions.{member};
ghost use Rattle.frang_base.specs.declared.limits.TheConstants.{SEGMENTS_MAX};
ghost use Rattle.sector_bytes.specs.SectorMaps.{Ascend, value_at};
ghost use Rattle.recovery_demon.specs.Naming.{Adds, AreAdded};
ghost use Rattle.recovery_demon.specs.Rules.{named};

use disk_replay::is_replayed;
use frang_base::{Change, NoMemory, Redo, Sector};
use ordered_map::OrderedMap;
use std::alloc::Global;

/// The sectors that records name and a replay may change, on a disk of so many segments.
pub(crate) fn named(
    alloc: Global,
    segments: u32,
    records: &[Redo],
) -> Result<OrderedMap<u64, ()>, NoMemory>
    requires { segments ≤ SEGMENTS_MAX }
    ensures ascend { IfOk result (λ m. Ascend m.entries) }
    ensures named { IfOk result (λ m. (sector : ℕ) → is_some (value_at m.entries sector) ≡ member sector (named segments records.now)) }
{
    let mut sectors = OrderedMap::new(alloc);
    for record in records {
        add_named(&mut sectors, segments, record.changes.as_slice())?;
    }
    let _ = sectors.count();
    Ok(sectors)
}

// Adds the sectors of changes that a replay may change.
fn add_named(
    sectors: &mut OrderedMap<u64, ()>,
    segments: u32,
    changes: &[Change],
) -> Result<(), NoMemory>
    requires { segments ≤ SEGMENTS_MAX }
    ensures { OnOk result (AreAdded segments (map (λ c. c.sector.0) changes.now) sectors.old.entries sectors.new.entries) }
{
    for change in changes {
        add_one(sectors, segments, change.sector)?;
    }
    Ok(())
}

// Adds a sector, if a replay may change it.
fn add_one(sectors: &mut OrderedMap<u64, ()>, segments: u32, sector: Sector) -> Result<(), NoMemory>
    requires { segments ≤ SEGMENTS_MAX }
    ensures { OnOk result (Adds segments sector.0 sectors.old.entries sectors.new.entries) }
{
    if is_replayed(segments, sector) {
        sectors.reserve(1)?;
        sectors.put(sector.0, ());
    }
    Ok(())
}
