// The sectors that a line needs.
ghost use Rattle.std.specs.Prelude.{◌≡◌, ◌&&◌, None, Option, Some, if◌then◌else◌, is_some, not};
ghost use Rattle.std.specs.BTreeMap.{is_at};
ghost use Rattle.std.specs.List.{slice_get};
ghost use Rattle.std.specs.Map.{keys_of};
ghost use Rattle.std.specs.Option.{option_map};
ghost use Rattle.std.specs.Ordering.{nat_cmp};
ghost use Rattle.frang_base.specs.Functions.{member};
ghost use Rattle.sector_bytes.specs.SectorMaps.{value_at};
ghost use Rattle.kept_plans.specs.declared.kept.KeptPlan.{KeptPlan as Plan};
ghost use Rattle.core_definitions.specs.Lines as core;
ghost use Rattle.core_definitions.specs.Lines.{missing_bitmaps};
ghost use Rattle.core_definitions.specs.LineEffects.{cover_needed};
ghost use Rattle.core_definitions.specs.LineGuards.{needed_by};
ghost use Rattle.line_stages.specs.Asked.{needs_of};
ghost use Rattle.line_stages.specs.Stages.{IsStage, first_needed, missing_under};

use crate::stage::Stage;
use clerk_cache::Cache;
use frang_base::{LockId, Mode, Sector};
use frang_layout::{Region, sector_of};
use line_sight::{first_missing, is_missing_at};
use lock_sets::LockSet;
use server_core::Server;

/// Whether a server's line at this stage needs a sector.
pub fn needs(stage: &Option<Stage>, server: &Server, sector: Sector) -> bool
    ensures { (plan : Option Plan) (at : Option core.Stage) → IsStage plan server.now.server stage.now at → result ≡ member sector.0 (needed_by at) }
{
    has_need(stage, server, sector)
}

/// The first sector that a server's line at this stage needs, with the lock that covers it. `None` exactly where it needs none.
pub fn first_needed(stage: &Option<Stage>, server: &Server) -> Option<(Sector, LockId)>
    ensures { (plan : Option Plan) (at : Option core.Stage) → IsStage plan server.now.server stage.now at → option_map (λ need. (need.0.0, need.1)) result ≡ first_needed at }
{
    first_need(stage, server)
}

/// The lock that covers a sector which a server's line at this stage needs. `None` exactly where it doesn't need the sector.
pub fn cover_needed(stage: &Option<Stage>, server: &Server, sector: Sector) -> Option<LockId>
    ensures { (plan : Option Plan) (at : Option core.Stage) → IsStage plan server.now.server stage.now at → result ≡ cover_needed at sector.0 }
{
    cover_of_need(stage, server, sector)
}

fn has_need(stage: &Option<Stage>, server: &Server, sector: Sector) -> bool
    ensures { result ≡ member sector.0 (keys_of (needs_of server.now.server stage.now)) }
{
    match stage {
        Some(Stage::Bitmaps) => is_missing_under(server, sector),
        Some(Stage::Fetching { sector: needed, .. }) => needed.0 == sector.0,
        _ => false,
    }
}

fn first_need(stage: &Option<Stage>, server: &Server) -> Option<(Sector, LockId)>
    ensures { option_map (λ need. (need.0.0, need.1)) result ≡ slice_get (needs_of server.now.server stage.now) 0 }
{
    match stage {
        Some(Stage::Bitmaps) => first_missing_under(server),
        Some(Stage::Fetching { sector, cover }) => Some((*sector, *cover)),
        _ => None,
    }
}

fn cover_of_need(stage: &Option<Stage>, server: &Server, sector: Sector) -> Option<LockId>
    ensures { result ≡ value_at (needs_of server.now.server stage.now) sector.0 }
{
    match stage {
        Some(Stage::Bitmaps) => cover_missing_under(server, sector),
        Some(
            Stage::Fetching {
                sector: needed,
                cover,
            },
        ) => cover_if(is_same(*needed, sector), *cover),
        _ => None,
    }
}

fn cover_if(test: bool, cover: LockId) -> Option<LockId>
    ensures { result ≡ (if test then Some cover else None) }
{
    if test { Some(cover) } else { None }
}

// Whether two sectors are one.
fn is_same(known: Sector, sector: Sector) -> bool
    ensures { result ≡ is_at (nat_cmp sector.0) known.0 }
{
    known.0 == sector.0
}

// Whether a sector is a bitmap of the line's set that isn't cached.
fn is_missing_under(server: &Server, sector: Sector) -> bool
    ensures { result ≡ member sector.0 (keys_of (missing_under server.now.server.under server.now.server.cache)) }
{
    match server.under() {
        Some(under) => is_missing_at(under.set(), server.cache(), sector),
        None => false,
    }
}

// The first bitmap of the line's set that isn't cached, with its segment's lock.
fn first_missing_under(server: &Server) -> Option<(Sector, LockId)>
    ensures { option_map (λ need. (need.0.0, need.1)) result ≡ slice_get (missing_under server.now.server.under server.now.server.cache) 0 }
{
    let under = server.under()?;
    let segment = first_missing(under.set(), server.cache())?;
    Some((bitmap_sector(segment), LockId::Segment(segment)))
}

// The lock of a bitmap of the line's set that isn't cached.
fn cover_missing_under(server: &Server, sector: Sector) -> Option<LockId>
    ensures { result ≡ value_at (missing_under server.now.server.under server.now.server.cache) sector.0 }
{
    let under = server.under()?;
    cover_missing(under.set().as_slice(), server.cache(), sector)
}

fn cover_missing(locks: &[(LockId, Mode)], cache: &Cache, sector: Sector) -> Option<LockId>
    ensures { result ≡ value_at (missing_bitmaps locks.now cache.now.entries) sector.0 }
{
    for need in locks {
        if let LockId::Segment(segment) = need.0 {
            if is_missing_as(segment, cache, sector) {
                return Some(need.0);
            }
        }
    }
    None
}

// Whether a sector is the bitmap of this segment and isn't cached.
fn is_missing_as(segment: u32, cache: &Cache, sector: Sector) -> bool
    ensures { result ≡ (is_at (nat_cmp sector.0) (core.bitmap_sector segment) && not (is_some (value_at cache.now.entries (core.bitmap_sector segment)))) }
{
    let bitmap = bitmap_sector(segment);
    is_same(bitmap, sector) && cache.get(bitmap).is_none()
}

// The sector of a segment's bitmap.
fn bitmap_sector(segment: u32) -> Sector
    ensures { result.0 ≡ core.bitmap_sector segment }
{
    sector_of(&Region::Segment(segment))
}
