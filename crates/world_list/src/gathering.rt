// Sectors gathered in order: the next one of a server's log, its dirty ones, and those that a recovery wants written.
ghost use Rattle.std.specs.Prelude.{◌≡◌, ◌∷◌, OnOk, []};
ghost use Rattle.std.specs.List.{flat_map};
ghost use Rattle.core_definitions.specs.Logs.{log_sector};
ghost use Rattle.log_slots.specs.Reading.{log_rules};
ghost use Rattle.recovery_demon.specs.Recovering.{all_wanted};
ghost use Rattle.world_list.specs.Wanting.{Joins, dirty_sectors, kept_sectors, log_sectors, written_of};

use frang_base::limits::LOG_SECTORS;
use frang_base::{NoMemory, Sector, ServerId};
use frang_layout::{Region, sector_of};
use ordered_map::OrderedMap;
use recovery_demon::{Demon, Next};
use server_core::Server;

// ---- one more

// A sector joins those gathered.
fn join(sectors: &mut OrderedMap<u64, ()>, sector: Sector) -> Result<(), NoMemory>
    ensures { OnOk result (Joins (sector.0 ∷ []) sectors.old.entries sectors.new.entries) }
{
    sectors.reserve(1)?;
    sectors.put(sector.0, ());
    Ok(())
}

// ---- what a server keeps

// The sector of a number in a server's log.
#[tactic(auto, unfolding(log_slots::specs::Reading::log_rules))]
fn log_sector(a: ServerId, number: u64) -> Sector
    ensures { result.0 ≡ log_sector log_rules a.0 number }
{
    sector_of(&Region::Log {
        server: a.0,
        slot: (number % LOG_SECTORS) as u8,
    })
}

// The sector that its log writes next.
fn join_log(sectors: &mut OrderedMap<u64, ()>, server: &Server) -> Result<(), NoMemory>
    ensures { OnOk result (Joins (log_sectors server.now.id server.now.server) sectors.old.entries sectors.new.entries) }
{
    match server.next_number() {
        Some(number) => join(sectors, log_sector(server.id(), number)),
        None => Ok(()),
    }
}

// Its dirty sectors.
fn join_dirty(sectors: &mut OrderedMap<u64, ()>, server: &Server) -> Result<(), NoMemory>
    ensures { OnOk result (Joins (dirty_sectors server.now.server) sectors.old.entries sectors.new.entries) }
{
    let dirty = server.cache().dirty()?;
    for mark in &dirty {
        join(sectors, mark.sector)?;
    }
    Ok(())
}

/// What it keeps.
pub(crate) fn join_kept(sectors: &mut OrderedMap<u64, ()>, server: &Server) -> Result<(), NoMemory>
    ensures { OnOk result (Joins (kept_sectors server.now.id server.now.server) sectors.old.entries sectors.new.entries) }
{
    join_log(sectors, server)?;
    join_dirty(sectors, server)
}

// ---- what a recovery wants

// The sectors that are to be written.
fn join_written(sectors: &mut OrderedMap<u64, ()>, wants: &[Next]) -> Result<(), NoMemory>
    ensures { OnOk result (Joins (flat_map written_of wants.now) sectors.old.entries sectors.new.entries) }
{
    for next in wants {
        if let Next::Write(sector) = next {
            join(sectors, *sector)?;
        }
    }
    Ok(())
}

/// Those of a recovery.
pub(crate) fn join_rescues(sectors: &mut OrderedMap<u64, ()>, demon: &Demon) -> Result<(), NoMemory>
    ensures { OnOk result (Joins (flat_map written_of (all_wanted demon.now.segments demon.now.recovery demon.now.issued)) sectors.old.entries sectors.new.entries) }
{
    let wants = demon.wants()?;
    join_written(sectors, &wants)
}
