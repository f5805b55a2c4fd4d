// Why a sector in place, or the log, is wanted.
ghost use Rattle.std.specs.Prelude.{◌≡◌, ◌<◌, Option};
ghost use Rattle.frang_base.specs.declared.limits.TheConstants.{SERVERS};
ghost use Rattle.core_definitions.specs.Lines.{Stage};
ghost use Rattle.core_definitions.specs.Writes.{is_log_wanted, lacks_room, log_wanted_to};
ghost use Rattle.lock_definitions.specs.Holders.{is_pressed, is_sole};
ghost use Rattle.log_slots.specs.Reading.{log_rules};
ghost use Rattle.server_writes.specs.Wants.{is_wanted_at};

use frang_base::{LockId, Mode, Sector, ServerId};
use lock_table::LockTable;
use server_core::Server;

/// Whether a server holds a lock sole.
pub(crate) fn is_sole(table: &LockTable, server: ServerId, lock: LockId) -> bool
    ensures { result ≡ is_sole table.now.locks server.0 lock }
{
    matches!(table.held(server, lock), Some(Mode::Sole))
}

/// Whether a server, 0 to 15, holds a lock sole that it is asked for.
pub fn is_pressed(table: &LockTable, server: ServerId, lock: LockId) -> bool
    requires { server.0 < SERVERS }
    ensures { result ≡ is_pressed table.now.locks server.0 lock }
{
    is_sole(table, server, lock) && table.asked_for(server, lock).is_some()
}

/// Whether a server, 0 to 15, wants a cached sector written while it is dirty; `waits`: its line waits for room in its log.
pub fn is_place_wanted(server: &Server, table: &LockTable, waits: bool, sector: Sector) -> bool
    requires { server.now.id < SERVERS }
    ensures { (stage : Option Stage) → lacks_room log_rules server.now.server.ring stage ≡ waits →
        result ≡ is_wanted_at table.now.locks server.now.id server.now.server stage sector.0 }
{
    let cache = server.cache();
    let Some(cover) = cache.cover(sector) else {
        return false;
    };
    cache.stays(sector)
        || server.is_pending(sector)
        || server.asks_unmount()
        || (server.asks_sync() && cache.is_bytes(sector))
        || is_pressed(table, server.id(), cover)
        || (waits && server.is_oldest_named(sector))
}

/// Whether a server wants its log up to its last number; `waits`: its line waits for room in its log.
pub fn is_log_wanted(server: &Server, table: &LockTable, waits: bool) -> bool
    ensures { (stage : Option Stage) → lacks_room log_rules server.now.server.ring stage ≡ waits →
        result ≡ is_log_wanted log_rules table.now.locks server.now.id server.now.server stage }
{
    server.has_pending()
        || server.asks_unmount()
        || server.asks_sync()
        || table.has_pressed(server.id())
        || waits
}

/// Up to which number a server wants its log; `waits`: its line waits for room in its log.
pub fn log_wanted_to(server: &Server, table: &LockTable, waits: bool) -> u64
    ensures { (stage : Option Stage) → lacks_room log_rules server.now.server.ring stage ≡ waits →
        result ≡ log_wanted_to log_rules table.now.locks server.now.id server.now.server stage }
{
    if is_log_wanted(server, table, waits) {
        server.last_number()
    } else {
        server.staying_log()
    }
}
