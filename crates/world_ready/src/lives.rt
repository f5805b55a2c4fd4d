// What is made ready for the lives of servers: Doom, Resume, Die, Renew.
ghost use Rattle.std.specs.Prelude.{◌≡◌, ◌<◌, IfOk, false};
ghost use Rattle.frang_base.specs.declared.limits.TheConstants.{SERVERS};
ghost use Rattle.core_definitions.specs.Events as core;
ghost use Rattle.world_state.specs.States.{core_at};
ghost use Rattle.world_asks.specs.Fresh.{IsFreshAt};
ghost use Rattle.world_ready.specs.Making.{IsMadeOf};

use crate::kinds::{Made, Ready};
use crate::texts::text_of;
use frang_base::{NoMemory, Said, ServerId};
use hall_runs::Call;
use std::alloc::Global;
use world_asks::Asking;
use world_state::World;

/// Doom: what it settles.
pub(crate) fn ready_doom(world: &World, a: ServerId) -> Option<Made>
    requires server { a.0 < SERVERS }
    requires going { world.now.over ≡ false }
    requires fresh { IsFreshAt world.now a.0 }
    ensures { IsMadeOf (core_at world.now) world.now (core.Doom a.0) result }
{
    let asking = Asking::new(world, a);
    if !asking.may_doom() {
        return None;
    }
    Some(Made {
        ready: Ready::Doom(a, asking.fate()),
        call: Call::Nothing,
    })
}

/// Resume: that it is said.
pub(crate) fn ready_resume(
    alloc: Global,
    world: &World,
    a: ServerId,
) -> Result<Option<Made>, NoMemory>
    ensures { IfOk result (IsMadeOf (core_at world.now) world.now (core.Resume a.0)) }
{
    if !world.may_resume(a) {
        return Ok(None);
    }
    let text = text_of(alloc, &Said::Renewed { server: a })?;
    Ok(Some(Made {
        ready: Ready::Resume(a),
        call: Call::Say(text),
    }))
}

/// Die: that it is said.
pub(crate) fn ready_die(alloc: Global, world: &World, a: ServerId) -> Result<Option<Made>, NoMemory>
    ensures { IfOk result (IsMadeOf (core_at world.now) world.now (core.Die a.0)) }
{
    if !world.may_die(a) {
        return Ok(None);
    }
    let text = text_of(alloc, &Said::Dead { server: a })?;
    Ok(Some(Made {
        ready: Ready::Die(a),
        call: Call::Say(text),
    }))
}

/// Renew: nothing is needed.
pub(crate) fn ready_renew(world: &World, a: ServerId) -> Option<Made>
    ensures { IsMadeOf (core_at world.now) world.now (core.Renew a.0) result }
{
    if !world.may_renew(a) {
        return None;
    }
    Some(Made {
        ready: Ready::Renew(a),
        call: Call::Nothing,
    })
}
