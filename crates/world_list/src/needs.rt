// What a server may fetch: the sectors that its line needs, and the slots of its own log that a mount hasn't read.
ghost use Rattle.std.specs.Prelude.{◌≡◌, ◌&&◌, OnOk, is_some, map, not};
ghost use Rattle.std.specs.Map.{keys_of};
ghost use Rattle.core_definitions.specs.Enabled.{only, only_if};
ghost use Rattle.core_definitions.specs.Events.{Fetch};
ghost use Rattle.core_definitions.specs.LineGuards.{slots_under};
ghost use Rattle.core_definitions.specs.Lines as core;
ghost use Rattle.core_definitions.specs.Lines.{missing_bitmaps, operation_of};
ghost use Rattle.core_definitions.specs.Servers.{asked_by, asks, is_off};
ghost use Rattle.disk_definitions.specs.Regions.{sector_of};
ghost use Rattle.disk_definitions.specs.declared.region.Region.TheVariants as region;
ghost use Rattle.line_stages.specs.Asked.{needs_of};
ghost use Rattle.line_stages.specs.Stages.{missing_under};
ghost use Rattle.log_slots.specs.Reading.{log_rules, unread_slots};
ghost use Rattle.sector_bytes.specs.SectorMaps.{value_at};
ghost use Rattle.tree_definitions.specs.Transcript.{is_mount};
ghost use Rattle.world_list.specs.Listing.{Adds};

use crate::pushing::push_if;
use clerk_cache::Cache;
use frang_base::limits::LOG_SECTORS;
use frang_base::{LockId, Mode, NoMemory, Sector, ServerId};
use frang_layout::{Region, sector_of};
use hall_runs::Event;
use line_stages::Stage;
use server_core::{Server, Under, is_mount};

// ---- what a line needs

// The sector of a segment's bitmap.
fn bitmap_sector(segment: u32) -> Sector
    ensures { result.0 ≡ core.bitmap_sector segment }
{
    sector_of(&Region::Segment(segment))
}

// A fetch of a segment's bitmap that isn't cached.
fn push_bitmap(
    list: &mut Vec<Event>,
    a: ServerId,
    segment: u32,
    cache: &Cache,
) -> Result<(), NoMemory>
    ensures { OnOk result (Adds list.old.items list.new.items (only (not (is_some (value_at cache.now.entries (core.bitmap_sector segment)))) (Fetch a.0 (core.bitmap_sector segment)))) }
{
    let sector = bitmap_sector(segment);
    push_if(list, cache.get(sector).is_none(), Event::Fetch(a, sector))
}

// A fetch of each bitmap of these locks' segments that isn't cached.
fn push_bitmaps(
    list: &mut Vec<Event>,
    a: ServerId,
    locks: &[(LockId, Mode)],
    cache: &Cache,
) -> Result<(), NoMemory>
    ensures { OnOk result (Adds list.old.items list.new.items (map (Fetch a.0) (keys_of (missing_bitmaps locks.now cache.now.entries)))) }
{
    for need in locks {
        if let LockId::Segment(segment) = need.0 {
            push_bitmap(list, a, segment, cache)?;
        }
    }
    Ok(())
}

// A fetch of each bitmap of the line's set that isn't cached.
fn push_missing(list: &mut Vec<Event>, server: &Server) -> Result<(), NoMemory>
    ensures { OnOk result (Adds list.old.items list.new.items (map (Fetch server.now.id) (keys_of (missing_under server.now.server.under server.now.server.cache)))) }
{
    match server.under() {
        Some(under) => push_bitmaps(list, server.id(), under.set().as_slice(), server.cache()),
        None => Ok(()),
    }
}

/// A fetch of each sector that a line at this stage needs.
pub(crate) fn push_needed(
    list: &mut Vec<Event>,
    stage: &Option<Stage>,
    server: &Server,
) -> Result<(), NoMemory>
    ensures { OnOk result (Adds list.old.items list.new.items (map (Fetch server.now.id) (keys_of (needs_of server.now.server stage.now)))) }
{
    match stage {
        Some(Stage::Bitmaps) => push_missing(list, server),
        Some(Stage::Fetching { sector, .. }) => {
            push_if(list, true, Event::Fetch(server.id(), *sector))
        }
        _ => Ok(()),
    }
}

// ---- the slots of its own log

// Whether a line is a mount whose answer is open.
fn is_open_mount(under: &Under) -> bool
    ensures { result ≡ (not (is_some under.now.under.fixed) && asked_by is_mount (operation_of under.now.under.line.what)) }
{
    match under.operation() {
        Some(operation) => under.is_open() && is_mount(operation),
        None => false,
    }
}

// The sector of a slot of a server's log.
fn slot_sector(a: ServerId, slot: u8) -> Sector
    ensures { result.0 ≡ sector_of (region.Log a.0 slot) }
{
    sector_of(&Region::Log { server: a.0, slot })
}

// A fetch of each slot of its server's log that a line hasn't read.
fn push_unread(list: &mut Vec<Event>, a: ServerId, under: &Under) -> Result<(), NoMemory>
    ensures { OnOk result (Adds list.old.items list.new.items (map (λ slot. Fetch a.0 (sector_of (region.Log a.0 slot))) (unread_slots under.now.under.slots))) }
{
    for number in 0..LOG_SECTORS {
        let slot = number as u8;
        push_if(
            list,
            under.is_unread(slot),
            Event::Fetch(a, slot_sector(a, slot)),
        )?;
    }
    Ok(())
}

/// A fetch of each slot of its own log that a server hasn't read which is off and mounts.
pub(crate) fn push_slots(
    list: &mut Vec<Event>,
    a: ServerId,
    server: &Server,
) -> Result<(), NoMemory>
    ensures { OnOk result (Adds list.old.items list.new.items (map (Fetch a.0) (only_if (is_off server.now.server.phase && asks is_mount server.now.server) (slots_under log_rules a.0 server.now.server.under)))) }
{
    match server.under() {
        Some(under) if server.is_off() && is_open_mount(under) => push_unread(list, a, under),
        _ => Ok(()),
    }
}
