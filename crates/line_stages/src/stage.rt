// How far a server's line over paths has come.
ghost use Rattle.std.specs.Prelude.{◌≡◌, ◌&&◌, is_some, not, true};
ghost use Rattle.std.specs.Option.{option_copied, option_map};
ghost use Rattle.core_definitions.specs.Lines.{missing_bitmaps};
ghost use Rattle.core_definitions.specs.Logs.{is_none};
ghost use Rattle.core_definitions.specs.Servers.{stage_of};
ghost use Rattle.core_definitions.specs.Settings.{Setting};
ghost use Rattle.set_definitions.specs.Sets.{to_ask};
ghost use Rattle.kept_plans.specs.Kept.{IsKeptBeside};
ghost use Rattle.kept_plans.specs.declared.kept.KeptEnd.TheVariants as ends;
ghost use Rattle.line_stages.specs.Reading.{end_stage, held_stage, if_through, kept_stage, line_stage, or_growing, path_line, plan_stage, stage_read};
ghost use Rattle.line_stages.specs.Stages.{IsStage, wants_plan};

use clerk_cache::Cache;
use frang_base::{LockId, Mode, Sector};
use kept_plans::{KeptEnd, KeptPlan};
use line_sight::first_missing;
use lock_sets::LockSet;
use lock_table::LockTable;
use server_core::{Server, Under};

/// How far a server's line over paths has come.
#[derive(Clone, Copy)]
pub enum Stage {
    /// A lock of the set lacks: this is the least one.
    Asking { lock: LockId, mode: Mode },
    /// Bitmaps of the set lack.
    Bitmaps,
    /// The plan needs this sector, and the lock that covers it is in the set.
    Fetching { sector: Sector, cover: LockId },
    /// A seen sector has moved.
    Moving,
    /// The comparison hasn't gone through.
    Stopping,
    /// The set lacks a lock that the plan finds.
    Growing,
    /// A block has to be cleared.
    Clearing { block: u32 },
    /// The line is finished: what it comes to is the kept plan's outcome.
    Finishing,
}

/// Whether the stage of a server goes by its plan: it is up, its line under way is an open one over paths, its set is held and no bitmap of it lacks.
pub fn wants_plan(table: &LockTable, server: &Server) -> bool
    ensures { result ≡ wants_plan table.now.locks server.now.id server.now.server }
{
    match path_line(server) {
        Some(under) => is_ready(table, server, under),
        None => false,
    }
}

// Whether a line's set is held and no bitmap of it lacks.
fn is_ready(table: &LockTable, server: &Server, under: &Under) -> bool
    ensures { result ≡ (not (is_some (to_ask table.now.locks server.now.id under.now.under.set)) && is_none (missing_bitmaps under.now.under.set server.now.server.cache)) }
{
    under.set().to_ask(table, server.id()).is_none() && is_none_missing(under.set(), server.cache())
}

// Whether no bitmap of a set lacks.
fn is_none_missing(set: &LockSet, cache: &Cache) -> bool
    ensures { result ≡ is_none (missing_bitmaps set.now cache.now.entries) }
{
    first_missing(set, cache).is_none()
}

/// How far a server's line over paths has come, by the plan that is kept beside it. `None` where the server isn't up, or its line under way is no open one over paths. Where a plan is wanted and
/// none is kept it says that the comparison hasn't gone through, and then nothing of the line is enabled. It takes no memory.
pub fn stage_of(table: &LockTable, server: &Server, plan: &Option<KeptPlan>) -> Option<Stage>
    ensures is { (setting : Setting) → (wants_plan table.now.locks server.now.id server.now.server ≡ true → is_some plan.now ≡ true) → IsKeptBeside setting server.now.server plan.now
        → IsStage plan.now server.now.server result (stage_of setting table.now.locks server.now.id server.now.server) }
    ensures reads { result ≡ stage_read table.now.locks server.now.id server.now.server plan.now }
{
    read_stage(table, server, plan)
}

// The same, as it is read off.
fn read_stage(table: &LockTable, server: &Server, plan: &Option<KeptPlan>) -> Option<Stage>
    ensures { result ≡ stage_read table.now.locks server.now.id server.now.server plan.now }
{
    let under = path_line(server)?;
    Some(line_stage(table, server, under, plan))
}

/// Of a server that is up its line under way, where that is an open one over paths.
pub(crate) fn path_line(server: &Server) -> Option<&Under>
    ensures { option_map (λ u. u.under) (option_copied result) ≡ path_line server.now.server }
{
    let under = server.under()?;
    if server.is_up() && under.is_over_paths() {
        Some(under)
    } else {
        None
    }
}

// How far a line has come.
fn line_stage(table: &LockTable, server: &Server, under: &Under, plan: &Option<KeptPlan>) -> Stage
    ensures { result ≡ line_stage under.now.under.set server.now.server.cache plan.now (to_ask table.now.locks server.now.id under.now.under.set) }
{
    match under.set().to_ask(table, server.id()) {
        Some((lock, mode)) => Stage::Asking { lock, mode },
        None => held_stage(under.set(), server.cache(), plan),
    }
}

// With its set held.
fn held_stage(set: &LockSet, cache: &Cache, plan: &Option<KeptPlan>) -> Stage
    ensures { result ≡ held_stage set.now plan.now (missing_bitmaps set.now cache.now.entries) }
{
    if first_missing(set, cache).is_some() {
        return Stage::Bitmaps;
    }
    kept_stage(set, plan)
}

// And its bitmaps at hand.
fn kept_stage(set: &LockSet, plan: &Option<KeptPlan>) -> Stage
    ensures { result ≡ kept_stage set.now plan.now }
{
    match plan {
        Some(KeptPlan::Planned(plan)) => end_stage(set, plan.through, &plan.end),
        Some(KeptPlan::Moved) => Stage::Moving,
        None => Stage::Stopping,
    }
}

// By how its plan ends; whether its comparison has gone through.
fn end_stage(set: &LockSet, through: bool, end: &KeptEnd) -> Stage
    ensures { result ≡ end_stage set.now through end.now }
{
    match end {
        KeptEnd::Need { sector, cover } => need_stage(set, through, *sector, *cover),
        KeptEnd::Segments => if_through(through, Stage::Growing),
        KeptEnd::Clear { block, locks } => {
            let stage = or_growing(set, locks, Stage::Clearing { block: *block });
            if_through(through, stage)
        }
        KeptEnd::Done(done) => {
            let stage = or_growing(set, &done.locks, Stage::Finishing);
            if_through(through, stage)
        }
    }
}

fn need_stage(set: &LockSet, through: bool, sector: Sector, cover: LockId) -> Stage
    ensures { result ≡ end_stage set.now through (ends.Need sector cover) }
{
    if set.has(cover) {
        Stage::Fetching { sector, cover }
    } else {
        if_through(through, Stage::Growing)
    }
}

// Only where the comparison has gone through.
fn if_through(through: bool, stage: Stage) -> Stage
    ensures { result ≡ if_through through stage }
{
    if through { stage } else { Stage::Stopping }
}

// The set grows where it lacks one of these locks.
fn or_growing(set: &LockSet, locks: &LockSet, stage: Stage) -> Stage
    ensures { result ≡ or_growing set.now locks.now stage }
{
    if set.lacks_any(locks.as_slice()) {
        Stage::Growing
    } else {
        stage
    }
}
