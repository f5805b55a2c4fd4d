// What a recovery reads: Load, Look.
ghost use Rattle.std.specs.Prelude.{◌≡◌, IsTrue};
ghost use Rattle.core_definitions.specs.Effects.{after};
ghost use Rattle.core_definitions.specs.Events as core;
ghost use Rattle.core_definitions.specs.LineEffects.{call_failed};
ghost use Rattle.core_definitions.specs.WriteGuards.{is_worker};
ghost use Rattle.hall_runs.specs.Asking.{heard_of};
ghost use Rattle.world_state.specs.States.{core_at};
ghost use Rattle.world_ready.specs.Fits.{FitsLoad, FitsLook};

use frang_base::{Sector, ServerId};
use hall_runs::Heard;
use world_parties::is_server;
use world_state::World;

// A get of a party that works failed.
fn fail(world: &mut World, by: ServerId)
    requires { IsTrue (is_worker (core_at world.old) by.0) }
    ensures { core_at world.new ≡ call_failed (core_at world.old) by.0 }
{
    if is_server(by) {
        world.server_failed(by);
    } else {
        world.host_failed();
    }
}

/// A slot of the dead server's log.
pub(crate) fn load(world: &mut World, by: ServerId, slot: u8, heard: &Heard)
    requires { FitsLoad (core_at world.old) world.old by.0 slot }
    ensures { core_at world.new ≡ after (core_at world.old) (core.Load by.0 slot) (heard_of heard.now) }
{
    match heard {
        Heard::Got(block) => world.load(by, slot, block),
        Heard::GetFailed => fail(world, by),
        Heard::Nothing => fail(world, by),
    }
}

/// A sector that the log's records name.
pub(crate) fn look(world: &mut World, by: ServerId, sector: Sector, heard: &Heard)
    requires { FitsLook (core_at world.old) world.old by.0 sector.0 }
    ensures { core_at world.new ≡ after (core_at world.old) (core.Look by.0 sector.0) (heard_of heard.now) }
{
    match heard {
        Heard::Got(block) => world.look(by, sector, block),
        Heard::GetFailed => fail(world, by),
        Heard::Nothing => fail(world, by),
    }
}
