// Which sector in place a server may have written next.
ghost use Rattle.std.specs.Prelude.{◌≡◌, ◌<◌, Option};
ghost use Rattle.frang_base.specs.declared.limits.TheConstants.{SERVERS};
ghost use Rattle.clerk_cache.specs.Dropping.{numbers_of};
ghost use Rattle.core_definitions.specs.Lines.{Stage};
ghost use Rattle.server_core.specs.States.{cached_in};
ghost use Rattle.server_writes.specs.Wants.{IsOneOf, IsRoomFor, is_due, is_one_of_these, is_one_pending, is_one_pressed, line_wants, ready_and, stays_wanted};

use crate::pressed::{TooMany, any_pressed, first_pressed};
use crate::ready::{first_pending, first_ready};
use frang_base::Sector;
use lock_table::LockTable;
use server_core::Server;

// The next sector that stays wanted.
fn next_staying(server: &Server) -> Option<Sector>
    ensures { IsOneOf (ready_and (cached_in server.now) server.now.server.ring.reached (stays_wanted server.now.server)) server.now.server.cache result }
{
    let cache = server.cache();
    // Each sector is cached once.
    let _cover = cache.cover(Sector(0));
    cache.next_staying(server.reached())
}

// The next sector whose zeros are pending.
fn next_pending(server: &Server) -> Option<Sector>
    ensures { IsOneOf (ready_and (cached_in server.now) server.now.server.ring.reached (is_one_pending server.now.server)) server.now.server.cache result }
{
    // Each sector is cached once.
    let _cover = server.cache().cover(Sector(0));
    first_pending(server)
}

// The next sector that the line under way wants: at an unmount any, at a sync one of file bytes.
fn next_of_line(server: &Server) -> Option<Sector>
    ensures { IsOneOf (ready_and (cached_in server.now) server.now.server.ring.reached (line_wants server.now.server)) server.now.server.cache result }
{
    let cache = server.cache();
    // Each sector is cached once.
    let _cover = cache.cover(Sector(0));
    if server.asks_unmount() {
        cache.next_idle(server.reached())
    } else if server.asks_sync() {
        cache.next_bytes(server.reached())
    } else {
        None
    }
}

// The next sector under a lock that is held sole and asked.
fn next_pressed(server: &Server, table: &LockTable) -> Option<Sector>
    requires { server.now.id < SERVERS }
    ensures { IsOneOf (ready_and (cached_in server.now) server.now.server.ring.reached (is_one_pressed table.now.locks server.now.id)) server.now.server.cache result }
{
    // Each sector is cached once.
    let _cover = server.cache().cover(Sector(0));
    match first_pressed(server, table) {
        Ok(found) => found,
        Err(TooMany) => any_pressed(server, table),
    }
}

// The next one of these sectors.
fn next_of_these(server: &Server, sectors: &[Sector]) -> Option<Sector>
    ensures { IsOneOf (ready_and (cached_in server.now) server.now.server.ring.reached (is_one_of_these (numbers_of sectors.now))) server.now.server.cache result }
{
    // Each sector is cached once.
    let _cover = server.cache().cover(Sector(0));
    first_ready(server, sectors)
}

/// A sector in place that a server, 0 to 15, wants written and may have written as far as it knows: it is dirty, its mark is reached and no write of it is in flight. `None` exactly where there
/// is none. `room`: the sectors that have to be clean before there is room for the record of its line, in any order, none where there is room. It takes no memory, and time
/// logarithmic in the number of the cached sectors for each lock that is asked, each sector that is pending and each of `room`.
pub fn next_place_write(server: &Server, table: &LockTable, room: &[Sector]) -> Option<Sector>
    requires { server.now.id < SERVERS }
    ensures { (stage : Option Stage) → IsRoomFor server.now.server stage (numbers_of room.now) →
        IsOneOf (is_due table.now.locks server.now.id server.now.server stage server.now.flying) server.now.server.cache result }
{
    if let Some(sector) = next_staying(server) {
        return Some(sector);
    }
    if let Some(sector) = next_pending(server) {
        return Some(sector);
    }
    if let Some(sector) = next_of_line(server) {
        return Some(sector);
    }
    if let Some(sector) = next_pressed(server, table) {
        return Some(sector);
    }
    next_of_these(server, room)
}
