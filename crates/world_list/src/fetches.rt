// Of one party the sectors that it may fetch: Fetch.
ghost use Rattle.std.specs.Prelude.{◌≡◌, ◌<◌, OnOk, map};
ghost use Rattle.frang_base.specs.declared.limits.TheConstants.{SERVERS};
ghost use Rattle.core_definitions.specs.Cores.{stage};
ghost use Rattle.core_definitions.specs.Events.{Fetch};
ghost use Rattle.core_definitions.specs.LineGuards.{needed_by};
ghost use Rattle.world_list.specs.Going.{AreStages};
ghost use Rattle.world_list.specs.Listing.{Adds, AddsOf};
ghost use Rattle.world_list.specs.Rows.{party_events};
ghost use Rattle.world_list.specs.declared.row.Row.TheVariants as rows;
ghost use Rattle.world_state.specs.States.{core_at};

use crate::needs::{push_needed, push_slots};
use crate::stages::stage_in;
use frang_base::{NoMemory, ServerId};
use hall_runs::Event;
use line_stages::Stage;
use world_parties::is_server;
use world_state::World;

// A fetch of each sector that a server's line needs.
fn push_needs(
    list: &mut Vec<Event>,
    world: &World,
    stages: &[Option<Stage>],
    a: ServerId,
) -> Result<(), NoMemory>
    requires server { a.0 < SERVERS }
    requires stages { AreStages world.now stages.now }
    ensures { OnOk result (Adds list.old.items list.new.items (map (Fetch a.0) (needed_by (stage (core_at world.now) a.0)))) }
{
    let stage = stage_in(stages, a);
    push_needed(list, &stage, &world.parties().get(a).server)
}

/// Fetch.
pub(crate) fn push_fetches(
    list: &mut Vec<Event>,
    world: &World,
    stages: &[Option<Stage>],
    a: ServerId,
) -> Result<(), NoMemory>
    requires { AreStages world.now stages.now }
    ensures { OnOk result (AddsOf list.old.items list.new.items (party_events world.now rows.Fetches a.0)) }
{
    if !is_server(a) {
        return Ok(());
    }
    push_needs(list, world, stages, a)?;
    push_slots(list, a, &world.parties().get(a).server)
}
