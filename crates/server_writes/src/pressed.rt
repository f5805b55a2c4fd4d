// The first sector that may be written under a lock that is held sole and asked.
ghost use Rattle.std.specs.Prelude.{◌≡◌, ◌<◌, IfOk};
ghost use Rattle.frang_base.specs.declared.limits.TheConstants.{SERVERS};
ghost use Rattle.lock_definitions.specs.Calls.{revokes};
ghost use Rattle.server_core.specs.States.{cached_in};
ghost use Rattle.server_writes.specs.Wants.{IsAtPlace, IsOneOf, first_of, is_one_pressed, next_if_sole, passes_at, ready_and};

use crate::ready::is_ready;
use crate::wanted::{is_pressed, is_sole};
use frang_base::{LockId, Sector};
use lock_table::{AskedFor, LockTable};
use server_core::Server;

/// A server is asked for more locks than can be counted, which no contract of the table rules out.
#[derive(Clone, Copy)]
pub(crate) struct TooMany;

// The next sector under a lock, where the lock is held sole.
fn next_if_sole(server: &Server, table: &LockTable, one: &(LockId, AskedFor)) -> Option<Sector>
    ensures { result ≡ next_if_sole table.now.locks server.now.id (cached_in server.now) server.now.server.ring.reached one.now }
{
    if is_sole(table, server.id(), one.0) {
        server.cache().next_under(one.0, server.reached())
    } else {
        None
    }
}

/// The first that there is under the locks that a server is asked for, one lock after another.
pub(crate) fn first_pressed(server: &Server, table: &LockTable) -> Result<Option<Sector>, TooMany>
    ensures { IfOk result (λ found. found ≡ first_of (next_if_sole table.now.locks server.now.id (cached_in server.now) server.now.server.ring.reached) (revokes table.now.locks server.now.id)) }
{
    for place in 0..usize::MAX {
        let Some(one) = table.asked_at(server.id(), place) else {
            return Ok(None);
        };
        if let Some(found) = next_if_sole(server, table, &one) {
            return Ok(Some(found));
        }
    }
    Err(TooMany)
}

// Whether a sector is cached under a lock that is held sole and asked.
fn is_under_pressed(server: &Server, table: &LockTable, sector: Sector) -> bool
    requires { server.now.id < SERVERS }
    ensures { result ≡ passes_at (is_one_pressed table.now.locks server.now.id) server.now.server.cache sector.0 }
{
    match server.cache().cover(sector) {
        Some(cover) => is_pressed(table, server.id(), cover),
        None => false,
    }
}

// Whether it may be written besides.
fn is_ready_pressed(server: &Server, table: &LockTable, sector: Sector) -> bool
    requires { server.now.id < SERVERS }
    ensures { result ≡ passes_at (ready_and (cached_in server.now) server.now.server.ring.reached (is_one_pressed table.now.locks server.now.id)) server.now.server.cache sector.0 }
{
    is_ready(server, sector) && is_under_pressed(server, table, sector)
}

// The cached sector at a place, where it passes.
fn pressed_at(server: &Server, table: &LockTable, i: usize) -> Option<Sector>
    requires { server.now.id < SERVERS }
    ensures { IsAtPlace (ready_and (cached_in server.now) server.now.server.ring.reached (is_one_pressed table.now.locks server.now.id)) server.now.server.cache i result }
{
    // Each sector is cached once.
    let _cover = server.cache().cover(Sector(0));
    let Some((sector, _)) = server.cache().sectors().at(i) else {
        return None;
    };
    if is_ready_pressed(server, table, sector) {
        Some(sector)
    } else {
        None
    }
}

/// One of all cached sectors, one after another.
pub(crate) fn any_pressed(server: &Server, table: &LockTable) -> Option<Sector>
    requires { server.now.id < SERVERS }
    ensures { IsOneOf (ready_and (cached_in server.now) server.now.server.ring.reached (is_one_pressed table.now.locks server.now.id)) server.now.server.cache result }
{
    for i in 0..server.cache().sectors().count() {
        if let Some(sector) = pressed_at(server, table, i) {
            return Some(sector);
        }
    }
    None
}
