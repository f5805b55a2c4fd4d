// Of one party the events of lives: Doom, Resume, Die, Renew.
ghost use Rattle.std.specs.Prelude.{◌≡◌, OnOk};
ghost use Rattle.core_definitions.specs.Cores.{writes};
ghost use Rattle.core_definitions.specs.WriteGuards.{may_doom};
ghost use Rattle.world_list.specs.Going.{AreStages, IsGoing};
ghost use Rattle.world_list.specs.Listing.{AddsOf};
ghost use Rattle.world_list.specs.Rows.{party_events};
ghost use Rattle.world_list.specs.declared.row.Row.TheVariants as rows;
ghost use Rattle.world_state.specs.States.{core_at};

use crate::asked::asked;
use crate::pushing::push_if;
use frang_base::{NoMemory, ServerId};
use hall_runs::Event;
use line_stages::Stage;
use world_parties::is_server;
use world_state::World;

// Whether a server is to be doomed.
fn may_doom(world: &World, stages: &[Option<Stage>], a: ServerId) -> bool
    requires going { IsGoing world.now }
    requires stages { AreStages world.now stages.now }
    ensures { result ≡ may_doom (core_at world.now) a.0 (writes (core_at world.now) a.0) }
{
    is_server(a) && asked(world, stages, a).may_doom()
}

/// Doom.
pub(crate) fn push_doom(
    list: &mut Vec<Event>,
    world: &World,
    stages: &[Option<Stage>],
    a: ServerId,
) -> Result<(), NoMemory>
    requires going { IsGoing world.now }
    requires stages { AreStages world.now stages.now }
    ensures { OnOk result (AddsOf list.old.items list.new.items (party_events world.now rows.Dooms a.0)) }
{
    push_if(list, may_doom(world, stages, a), Event::Doom(a))
}

/// Resume.
pub(crate) fn push_resume(list: &mut Vec<Event>, world: &World, a: ServerId) -> Result<(), NoMemory>
    ensures { OnOk result (AddsOf list.old.items list.new.items (party_events world.now rows.Resumes a.0)) }
{
    push_if(list, world.may_resume(a), Event::Resume(a))
}

/// Die.
pub(crate) fn push_die(list: &mut Vec<Event>, world: &World, a: ServerId) -> Result<(), NoMemory>
    ensures { OnOk result (AddsOf list.old.items list.new.items (party_events world.now rows.Dies a.0)) }
{
    push_if(list, world.may_die(a), Event::Die(a))
}

/// Renew.
pub(crate) fn push_renew(list: &mut Vec<Event>, world: &World, a: ServerId) -> Result<(), NoMemory>
    ensures { OnOk result (AddsOf list.old.items list.new.items (party_events world.now rows.Renews a.0)) }
{
    push_if(list, world.may_renew(a), Event::Renew(a))
}
