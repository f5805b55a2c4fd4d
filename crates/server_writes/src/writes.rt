// The writes in place that a server wants, as a list.
ghost use Rattle.std.specs.Prelude.{◌≡◌, ◌<◌, IfOk, Option, map};
ghost use Rattle.std.specs.Option.{option_map};
ghost use Rattle.frang_base.specs.declared.limits.TheConstants.{SERVERS};
ghost use Rattle.core_definitions.specs.Lines.{Stage};
ghost use Rattle.core_definitions.specs.Writes.{lacks_room, place_writes};
ghost use Rattle.log_slots.specs.Reading.{log_rules};
ghost use Rattle.server_writes.specs.Lists.{entry_at, entry_of};

use crate::wanted::is_place_wanted;
use frang_base::{Block, LockId, NoMemory, Sector};
use lock_table::LockTable;
use server_core::Server;
use std::alloc::Global;

/// A write in place: of a sector, this block; the lock that covers the sector, and the number up to which the log has to stand on the disk before.
#[derive(Clone, Copy)]
pub struct PlaceWrite {
    pub sector: Sector,
    pub block: Block,
    pub cover: LockId,
    pub mark: u64,
}

/// The write of a sector in place that a server, 0 to 15, wants. `None` exactly where it wants none; `waits`: its line waits for room in its log.
pub fn place_write(
    server: &Server,
    table: &LockTable,
    waits: bool,
    sector: Sector,
) -> Option<PlaceWrite>
    requires { server.now.id < SERVERS }
    ensures { (stage : Option Stage) → lacks_room log_rules server.now.server.ring stage ≡ waits →
        option_map (entry_of server.now.id) result ≡ entry_at table.now.locks server.now.id server.now.server stage sector.0 }
{
    if !is_place_wanted(server, table, waits, sector) {
        return None;
    }
    let cache = server.cache();
    Some(PlaceWrite {
        sector,
        block: *cache.get(sector)?,
        cover: cache.cover(sector)?,
        mark: cache.mark(sector)?,
    })
}

/// All of them, ascending by sector. Its one refusal is want of memory.
pub fn place_writes(
    alloc: Global,
    server: &Server,
    table: &LockTable,
    waits: bool,
) -> Result<Vec<PlaceWrite>, NoMemory>
    requires { server.now.id < SERVERS }
    ensures { IfOk result (λ list. (stage : Option Stage) → lacks_room log_rules server.now.server.ring stage ≡ waits →
        map (entry_of server.now.id) list.items ≡ place_writes log_rules table.now.locks server.now.id server.now.server stage) }
{
    let cache = server.cache();
    // Each sector is cached once.
    let _cover = cache.cover(Sector(0));
    let dirty = cache.dirty()?;
    let mut list = Vec::new(alloc);
    for mark in &dirty {
        if let Some(write) = place_write(server, table, waits, mark.sector) {
            list.push(write)?;
        }
    }
    Ok(list)
}
