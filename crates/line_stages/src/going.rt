// Whether a line at its stage goes on again, and whether it may be committed.
ghost use Rattle.std.specs.Prelude.{◌≡◌, ◌&&◌, ◌||◌, Option, is_some, true};
ghost use Rattle.clerk_cache.specs.Dropping.{numbers_of};
ghost use Rattle.core_definitions.specs.Lines as core;
ghost use Rattle.core_definitions.specs.LineGuards.{done_by, has_room_for, is_grown, is_moved, may_reclaim};
ghost use Rattle.core_definitions.specs.Logs.{is_none};
ghost use Rattle.core_definitions.specs.Servers.{is_in_mount};
ghost use Rattle.core_definitions.specs.Writes.{lacks_room};
ghost use Rattle.log_slots.specs.Reading.{log_rules};
ghost use Rattle.line_stages.specs.Asked.{is_anew_or_grown};
ghost use Rattle.line_stages.specs.Oldest.{AreOldest};
ghost use Rattle.line_stages.specs.Stages.{IsStage};

use crate::oldest::are_in_place;
use crate::room::{has_room, is_finishing, lacks_room};
use crate::stage::Stage;
use frang_base::Sector;
use kept_plans::KeptPlan;
use server_core::Server;

/// Whether a server's line at this stage has cause to go on again: a seen sector has moved, its set grows, or it is finished without room in its log while all that the oldest records of the log
/// name is in place. `oldest` are the sectors that they name, where room lacks.
pub fn must_again(
    stage: &Option<Stage>,
    server: &Server,
    plan: &Option<KeptPlan>,
    oldest: &[Sector],
) -> bool
    ensures { (at : Option core.Stage) → IsStage plan.now server.now.server stage.now at → is_in_mount server.now.server.phase ≡ true
        → (lacks_room log_rules server.now.server.ring at ≡ true → AreOldest server.now.server.ring (numbers_of oldest.now))
        → result ≡ (is_moved at || is_grown at || may_reclaim log_rules server.now.server at) }
{
    is_anew_or_grown(stage) || (lacks_room(stage, server, plan) && are_in_place(server, oldest))
}

fn is_anew_or_grown(stage: &Option<Stage>) -> bool
    ensures { result ≡ is_anew_or_grown stage.now }
{
    matches!(stage, Some(Stage::Moving | Stage::Growing))
}

/// Whether a server's line at this stage may be committed: it is finished, no zeros are pending, and its log has room for the record.
pub fn may_commit(stage: &Option<Stage>, server: &Server, plan: &Option<KeptPlan>) -> bool
    ensures { (at : Option core.Stage) → IsStage plan.now server.now.server stage.now at → is_in_mount server.now.server.phase ≡ true
        → result ≡ (is_some (done_by at) && is_none server.now.server.pending && has_room_for log_rules server.now.server (done_by at)) }
{
    is_finishing(stage) && !server.has_pending() && has_room(server, plan)
}
