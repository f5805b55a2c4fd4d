// Of one party the locks that it may give: Give.
ghost use Rattle.std.specs.Prelude.{OnOk};
ghost use Rattle.std.specs.List.{flat_map};
ghost use Rattle.core_definitions.specs.Enabled.{only};
ghost use Rattle.core_definitions.specs.Events.{Give};
ghost use Rattle.core_definitions.specs.WriteGuards.{may_give};
ghost use Rattle.world_list.specs.Listing.{Adds, AddsOf};
ghost use Rattle.world_list.specs.Rows.{party_events};
ghost use Rattle.world_list.specs.declared.row.Row.TheVariants as rows;
ghost use Rattle.world_state.specs.States.{core_at};

use crate::pushing::push_if;
use frang_base::{LockId, NoMemory, ServerId};
use hall_runs::Event;
use lock_definitions::AskedFor;
use world_state::World;

// Of locks that a server is asked for, those that it may give.
fn push_given(
    list: &mut Vec<Event>,
    world: &World,
    a: ServerId,
    asked: &[(LockId, AskedFor)],
) -> Result<(), NoMemory>
    ensures { OnOk result (Adds list.old.items list.new.items (flat_map (λ one. only (may_give (core_at world.now) a.0 one.0) (Give a.0 one.0)) asked.now)) }
{
    for one in asked {
        push_if(list, world.may_give(a, one.0), Event::Give(a, one.0))?;
    }
    Ok(())
}

/// Give: only a lock that is asked for may be given.
pub(crate) fn push_gives(list: &mut Vec<Event>, world: &World, a: ServerId) -> Result<(), NoMemory>
    ensures { OnOk result (AddsOf list.old.items list.new.items (party_events world.now rows.Gives a.0)) }
{
    let asked = world.locks().revokes(a)?;
    push_given(list, world, a, &asked)
}
