// Room in a log for the record of a finished line.
ghost use Rattle.std.specs.Prelude.{◌≡◌, ◌&&◌, ℕ, Option, Some, true};
ghost use Rattle.frang_base.specs.Functions.{member};
ghost use Rattle.clerk_cache.specs.Dropping.{numbers_of};
ghost use Rattle.core_definitions.specs.Lines as core;
ghost use Rattle.core_definitions.specs.Plans as plans;
ghost use Rattle.core_definitions.specs.Rings.{has_room, is_oldest_named};
ghost use Rattle.core_definitions.specs.Servers.{is_in_mount};
ghost use Rattle.core_definitions.specs.Writes.{lacks_room};
ghost use Rattle.log_slots.specs.Reading.{log_rules};
ghost use Rattle.ring_definitions.specs.Rings.{Ring as TheRing, is_record};
ghost use Rattle.line_stages.specs.Oldest.{AreOldest};
ghost use Rattle.line_stages.specs.Asked.{is_finishing};
ghost use Rattle.line_stages.specs.Stages.{ComesTo, EndComesTo, IsStage};

use crate::stage::Stage;
use frang_base::{Redo, Sector};
use kept_plans::{FinishedLine, KeptEnd, KeptPlan};
use server_core::Server;
use wal_ring::Ring;

/// Whether a server's line at this stage is finished and its log has no room for the record.
pub fn lacks_room(stage: &Option<Stage>, server: &Server, plan: &Option<KeptPlan>) -> bool
    ensures { (at : Option core.Stage) → IsStage plan.now server.now.server stage.now at → is_in_mount server.now.server.phase ≡ true → result ≡ lacks_room log_rules server.now.server.ring at }
{
    is_finishing(stage) && !has_room(server, plan)
}

/// Whether a line at this stage is finished.
pub(crate) fn is_finishing(stage: &Option<Stage>) -> bool
    ensures { result ≡ is_finishing stage.now }
{
    matches!(stage, Some(Stage::Finishing))
}

/// Whether the log of a server has room for the record of a finished line.
pub(crate) fn has_room(server: &Server, plan: &Option<KeptPlan>) -> bool
    ensures { (outcome : plans.Outcome) → ComesTo plan.now outcome → is_in_mount server.now.server.phase ≡ true → result ≡ has_room log_rules server.now.server.ring outcome.redo }
{
    match plan {
        Some(KeptPlan::Planned(plan)) => has_room_at(server, &plan.end),
        Some(KeptPlan::Moved) => false,
        None => false,
    }
}

fn has_room_at(server: &Server, end: &KeptEnd) -> bool
    ensures { (outcome : plans.Outcome) → EndComesTo end.now outcome → is_in_mount server.now.server.phase ≡ true → result ≡ has_room log_rules server.now.server.ring outcome.redo }
{
    match end {
        KeptEnd::Done(done) => has_room_for(server, done),
        KeptEnd::Need { .. } => false,
        KeptEnd::Segments => false,
        KeptEnd::Clear { .. } => false,
    }
}

fn has_room_for(server: &Server, done: &FinishedLine) -> bool
    ensures { is_in_mount server.now.server.phase ≡ true → result ≡ has_room log_rules server.now.server.ring done.now.outcome.redo }
{
    match &done.outcome.redo {
        Some(redo) => takes_in(server, redo),
        None => true,
    }
}

// Whether the log of a server has room for a record.
fn takes_in(server: &Server, redo: &Redo) -> bool
    requires { is_record redo.now ≡ true }
    ensures { is_in_mount server.now.server.phase ≡ true → result ≡ has_room log_rules server.now.server.ring (Some redo.now) }
{
    match server.ring() {
        Some(ring) => takes(ring, redo),
        None => false,
    }
}

// Whether a log has room for a record.
#[tactic(auto, using(crate::proofs::NamedSectors::has_room_for))]
fn takes(ring: &Ring, redo: &Redo) -> bool
    requires { is_record redo.now ≡ true }
    ensures { result ≡ has_room log_rules ring.now.ring (Some redo.now) }
{
    match ring.room(redo) {
        Ok((need, free)) => need <= free,
        Err(_) => unreachable!(),
    }
}

/// The sectors that have to be clean before there is room for the record of a line: those that the oldest records of its log name, where it lacks room, and none else.
pub fn room_wanted(lacks: bool, oldest: &[Sector]) -> &[Sector]
    ensures { (ring : TheRing) → (lacks ≡ true → AreOldest ring (numbers_of oldest.now)) → (s : ℕ) → member s (numbers_of result.now) ≡ (lacks && is_oldest_named log_rules ring s) }
{
    if lacks { oldest } else { &[] }
}
