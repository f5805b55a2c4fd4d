// The sectors that the oldest records of a log name.
ghost use Rattle.std.specs.Prelude.{◌≡◌, IfOk, map, not};
ghost use Rattle.std.specs.List.{list_all};
ghost use Rattle.clerk_cache.specs.Dropping.{numbers_of};
ghost use Rattle.cache_definitions.specs.Caches.{is_dirty_at};
ghost use Rattle.core_definitions.specs.LineGuards.{is_oldest_in_place};
ghost use Rattle.log_slots.specs.Reading.{log_rules};
ghost use Rattle.line_stages.specs.Oldest.{AreOldest};

use frang_base::{NoMemory, Sector};
use server_core::Server;
use std::alloc::Global;
use wal_ring::Ring;

/// The sectors that the oldest records of a server's log name, which have to be in place before its log can give these records up: each once, ascending. They stay while no record joins the log
/// and none is given up. Its one refusal is want of memory.
pub fn oldest_sectors(alloc: Global, server: &Server) -> Result<Vec<Sector>, NoMemory>
    ensures { IfOk result (λ sectors. AreOldest server.now.server.ring (numbers_of sectors.items)) }
{
    match server.ring() {
        Some(ring) => oldest_in(alloc, ring),
        None => Ok(Vec::new(alloc)),
    }
}

// Those of a log.
fn oldest_in(alloc: Global, ring: &Ring) -> Result<Vec<Sector>, NoMemory>
    ensures { IfOk result (λ sectors. AreOldest ring.now.ring (numbers_of sectors.items)) }
{
    let oldest = ring.oldest()?;
    let sectors = sectors_of(alloc, oldest.as_slice())?;
    Ok(sectors)
}

// The sectors of a list with versions.
fn sectors_of(alloc: Global, list: &[(Sector, u64)]) -> Result<Vec<Sector>, NoMemory>
    ensures { IfOk result (λ sectors. numbers_of sectors.items ≡ map (λ entry. entry.0.0) list.now) }
{
    let mut sectors = Vec::new(alloc);
    for entry in list {
        sectors.push(entry.0)?;
    }
    Ok(sectors)
}

/// Whether all these sectors are in place: a server has none of them dirty.
pub(crate) fn are_in_place(server: &Server, sectors: &[Sector]) -> bool
    ensures { AreOldest server.now.server.ring (numbers_of sectors.now) → result ≡ is_oldest_in_place log_rules server.now.server }
{
    are_clean(server, sectors)
}

// Whether none of these sectors is dirty.
fn are_clean(server: &Server, sectors: &[Sector]) -> bool
    ensures { result ≡ list_all (λ sector. not (is_dirty_at server.now.server.cache sector.0)) sectors.now }
{
    sectors.iter().all(|sector| !server.is_dirty(*sector))
}
