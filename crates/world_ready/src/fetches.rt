// What is made ready for a sector that a server reads: Fetch.
ghost use Rattle.std.specs.Prelude.{◌≡◌, ◌<◌, IfOk, Some, false, true};
ghost use Rattle.frang_base.specs.declared.limits.TheConstants.{SERVERS};
ghost use Rattle.core_definitions.specs.Cores.{stage};
ghost use Rattle.core_definitions.specs.Events as core;
ghost use Rattle.core_definitions.specs.LineEffects.{cover_needed};
ghost use Rattle.core_definitions.specs.LineGuards.{CanFetch};
ghost use Rattle.core_definitions.specs.Servers.{is_off};
ghost use Rattle.server_core.specs.Effects.{IsSlot};
ghost use Rattle.world_state.specs.States.{core_at};
ghost use Rattle.world_asks.specs.Fetches.{may_fetch};
ghost use Rattle.world_asks.specs.Fresh.{IsFreshAt};
ghost use Rattle.world_ready.specs.Making.{IsMadeOf};

use crate::kinds::{Made, Ready};
use frang_base::{LockId, NoMemory, Sector, ServerId};
use hall_runs::Call;
use world_asks::Asking;
use world_state::World;

// A sector that the line of a server needs. Want of memory comes also where it is dirty, which what isn't cached never is.
fn ready_sector(
    world: &mut World,
    a: ServerId,
    sector: Sector,
    cover: LockId,
) -> Result<Made, NoMemory>
    requires can { CanFetch (core_at world.old) a.0 sector.0 }
    requires on { is_off ((core_at world.old).servers a.0).phase ≡ false }
    requires cover { cover_needed (stage (core_at world.old) a.0) sector.0 ≡ Some cover }
    ensures core { core_at world.new ≡ core_at world.old }
    ensures made { IfOk result (λ made. IsMadeOf (core_at world.old) world.new (core.Fetch a.0 sector.0) (Some made)) }
{
    if world.parties().get(a).server.is_dirty(sector) {
        return Err(NoMemory);
    }
    world.ready_fetch(a)?;
    Ok(Made {
        ready: Ready::FetchSector(a, sector, cover),
        call: Call::Get(a, sector),
    })
}

// A slot of its log that the mount of a server reads.
fn ready_slot(world: &mut World, a: ServerId, sector: Sector) -> Result<Made, NoMemory>
    requires can { CanFetch (core_at world.old) a.0 sector.0 }
    requires off { is_off ((core_at world.old).servers a.0).phase ≡ true }
    requires slot { IsSlot a.0 sector.0 }
    ensures core { core_at world.new ≡ core_at world.old }
    ensures made { IfOk result (λ made. IsMadeOf (core_at world.old) world.new (core.Fetch a.0 sector.0) (Some made)) }
{
    world.ready_slot(a)?;
    Ok(Made {
        ready: Ready::FetchSlot(a, sector),
        call: Call::Get(a, sector),
    })
}

// Whether a server may fetch a sector.
fn may_fetch(world: &World, a: ServerId, sector: Sector) -> bool
    requires server { a.0 < SERVERS }
    requires going { world.now.over ≡ false }
    requires fresh { IsFreshAt world.now a.0 }
    ensures { result ≡ may_fetch (core_at world.now) a.0 sector.0 }
{
    let asking = Asking::new(world, a);
    asking.may_fetch(sector)
}

// The lock that covers a sector which the line of a server needs.
fn cover_needed(world: &World, a: ServerId, sector: Sector) -> Option<LockId>
    requires server { a.0 < SERVERS }
    requires going { world.now.over ≡ false }
    requires fresh { IsFreshAt world.now a.0 }
    ensures { result ≡ cover_needed (stage (core_at world.now) a.0) sector.0 }
{
    let asking = Asking::new(world, a);
    asking.cover_needed(sector)
}

/// Fetch: room for the sector, which the line needs or which is a slot of the log that a mount reads.
pub(crate) fn ready_fetch(
    world: &mut World,
    a: ServerId,
    sector: Sector,
) -> Result<Option<Made>, NoMemory>
    requires server { a.0 < SERVERS }
    requires going { world.old.over ≡ false }
    requires fresh { IsFreshAt world.old a.0 }
    ensures core { core_at world.new ≡ core_at world.old }
    ensures made { IfOk result (IsMadeOf (core_at world.old) world.new (core.Fetch a.0 sector.0)) }
{
    if !may_fetch(world, a, sector) {
        return Ok(None);
    }
    match cover_needed(world, a, sector) {
        Some(cover) => Ok(Some(ready_sector(world, a, sector, cover)?)),
        None => Ok(Some(ready_slot(world, a, sector)?)),
    }
}
