// The slots of its log that a mount at a server that is off hasn't read yet.
ghost use Rattle.std.specs.Prelude.{◌≡◌, ◌&&◌, Option, Some, if◌then◌else◌};
ghost use Rattle.std.specs.List.{slice_get};
ghost use Rattle.std.specs.Option.{option_copied, option_map};
ghost use Rattle.frang_base.specs.Functions.{member};
ghost use Rattle.disk_definitions.specs.Regions.{sector_of};
ghost use Rattle.disk_definitions.specs.declared.region.Region.TheVariants as region;
ghost use Rattle.tree_definitions.specs.Transcript.{is_mount};
ghost use Rattle.core_definitions.specs.Servers.{asks, is_off, is_open};
ghost use Rattle.world_asks.specs.Fetches.{IsSlotAt, sectors_left, unread_of};

use frang_base::limits::LOG_SECTORS;
use frang_base::{Sector, ServerId};
use frang_layout::{Region, sector_of};
use server_core::{Server, Under, is_mount};

// ---- the mount

// Whether a line is a mount whose answer is open.
fn asks_mount(under: &Under) -> bool
    ensures { result ≡ is_open is_mount (Some under.now.under) }
{
    match under.operation() {
        Some(operation) => under.is_open() && is_mount(operation),
        None => false,
    }
}

// The open mount line under way of a server that is off.
fn mount_under(server: &Server) -> Option<&Under>
    ensures { option_map (λ u. u.under) (option_copied result) ≡ (if is_off server.now.server.phase && asks is_mount server.now.server then server.now.server.under else None) }
{
    let under = server.under()?;
    if server.is_off() && asks_mount(under) {
        Some(under)
    } else {
        None
    }
}

// ---- slots and their sectors

// The sector of a slot of a server's log.
fn slot_sector(a: ServerId, slot: u8) -> Sector
    ensures { result.0 ≡ sector_of (region.Log a.0 slot) }
{
    sector_of(&Region::Log { server: a.0, slot })
}

// The slot of a server's log that a sector is.
fn slot_at(a: ServerId, sector: Sector) -> Option<u8>
    ensures { IsSlotAt a.0 sector.0 result }
{
    let first = slot_sector(a, 0).0;
    if sector.0 < first || LOG_SECTORS <= sector.0 - first {
        return None;
    }
    Some((sector.0 - first) as u8)
}

// The sector of the first slot that a line hasn't read yet.
fn first_left(under: &Under, a: ServerId) -> Option<Sector>
    ensures { option_map (λ sector. sector.0) result ≡ slice_get (sectors_left a.0 under.now.under.slots) 0 }
{
    match under.first_unread() {
        Some(slot) => Some(slot_sector(a, slot)),
        None => None,
    }
}

// Whether a sector is a slot that a line hasn't read yet.
fn is_left(under: &Under, a: ServerId, sector: Sector) -> bool
    ensures { result ≡ member sector.0 (sectors_left a.0 under.now.under.slots) }
{
    match slot_at(a, sector) {
        Some(slot) => under.is_unread(slot),
        None => false,
    }
}

// ---- of a server

/// The sector of the first slot that a mount at this server hasn't read yet. `None` exactly where there is none.
pub(crate) fn first_unread(server: &Server) -> Option<Sector>
    ensures { option_map (λ sector. sector.0) result ≡ slice_get (unread_of server.now.id server.now.server) 0 }
{
    match mount_under(server) {
        Some(under) => first_left(under, server.id()),
        None => None,
    }
}

/// Whether a sector is a slot that a mount at this server hasn't read yet.
pub(crate) fn is_unread(server: &Server, sector: Sector) -> bool
    ensures { result ≡ member sector.0 (unread_of server.now.id server.now.server) }
{
    match mount_under(server) {
        Some(under) => is_left(under, server.id(), sector),
        None => false,
    }
}
