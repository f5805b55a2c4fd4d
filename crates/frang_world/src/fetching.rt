// A sector or a slot that a server reads: Fetch.
ghost use Rattle.std.specs.Prelude.{◌≡◌};
ghost use Rattle.core_definitions.specs.Effects.{after};
ghost use Rattle.core_definitions.specs.Events as core;
ghost use Rattle.hall_runs.specs.Asking.{heard_of};
ghost use Rattle.world_state.specs.States.{core_at};
ghost use Rattle.world_ready.specs.Fits.{FitsSector, FitsSlot};

use frang_base::{LockId, Sector, ServerId};
use hall_runs::Heard;
use world_state::World;

/// A sector that a server's line needs, under the lock that covers it.
pub(crate) fn fetch_sector(
    world: &mut World,
    a: ServerId,
    sector: Sector,
    cover: LockId,
    heard: &Heard,
)
    requires { FitsSector (core_at world.old) world.old a.0 sector.0 cover }
    ensures { core_at world.new ≡ after (core_at world.old) (core.Fetch a.0 sector.0) (heard_of heard.now) }
{
    match heard {
        Heard::Got(block) => world.fetched(a, sector, block, cover),
        Heard::GetFailed => world.server_failed(a),
        Heard::Nothing => world.server_failed(a),
    }
}

/// A slot of its log that a server's mount reads.
pub(crate) fn fetch_slot(world: &mut World, a: ServerId, sector: Sector, heard: &Heard)
    requires { FitsSlot (core_at world.old) world.old a.0 sector.0 }
    ensures { core_at world.new ≡ after (core_at world.old) (core.Fetch a.0 sector.0) (heard_of heard.now) }
{
    match heard {
        Heard::Got(block) => world.slot_read(a, sector, block),
        Heard::GetFailed => world.get_refused(a),
        Heard::Nothing => world.get_refused(a),
    }
}
