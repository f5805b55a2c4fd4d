// What is made ready for locks that are given and for writes: Give, Issue, Arrive, Lose.
ghost use Rattle.std.specs.Prelude.{◌≡◌, ◌<◌, IfOk, false};
ghost use Rattle.frang_base.specs.declared.limits.TheConstants.{SERVERS};
ghost use Rattle.core_definitions.specs.Events as core;
ghost use Rattle.core_definitions.specs.Scripts.{host_party};
ghost use Rattle.hall_runs.specs.Asking.{Asks};
ghost use Rattle.world_state.specs.States.{core_at};
ghost use Rattle.world_asks.specs.Fresh.{IsFreshAt};
ghost use Rattle.world_ready.specs.Making.{IsMadeOf, MayWrite};

use crate::kinds::{Made, Ready};
use frang_base::{LockId, NoMemory, Sector, ServerId};
use hall_runs::Call;
use petal_disk::Ticket;
use server_issues::WantedWrite;
use world_asks::{Asking, host_write};
use world_state::World;

/// Give: nothing is needed.
pub(crate) fn ready_give(world: &World, a: ServerId, lock: LockId) -> Option<Made>
    ensures { IsMadeOf (core_at world.now) world.now (core.Give a.0 lock) result }
{
    if !world.may_give(a, lock) {
        return None;
    }
    Some(Made {
        ready: Ready::Give(a, lock),
        call: Call::Nothing,
    })
}

// ---- Issue

// The write of a sector that a server may issue. `None` exactly where it may not issue one.
fn server_write(world: &World, a: ServerId, sector: Sector) -> Option<WantedWrite>
    requires server { a.0 < SERVERS }
    requires going { world.now.over ≡ false }
    requires fresh { IsFreshAt world.now a.0 }
    ensures { MayWrite (core_at world.now) a.0 sector.0 result }
{
    let asking = Asking::new(world, a);
    if asking.may_issue(sector) {
        asking.write(sector)
    } else {
        None
    }
}

// A write, which a party may issue.
fn ready_write(
    world: &mut World,
    by: ServerId,
    sector: Sector,
    write: Option<WantedWrite>,
) -> Result<Option<Made>, NoMemory>
    requires { MayWrite (core_at world.old) by.0 sector.0 write }
    ensures core { core_at world.new ≡ core_at world.old }
    ensures made { IfOk result (IsMadeOf (core_at world.old) world.new (core.Issue by.0 sector.0)) }
{
    match write {
        Some(write) => {
            world.ready_issue(by)?;
            Ok(Some(Made {
                ready: Ready::Issue(by, sector, write),
                call: Call::Nothing,
            }))
        }
        None => Ok(None),
    }
}

/// Issue of a server: the write, and room for it.
pub(crate) fn ready_issue(
    world: &mut World,
    a: ServerId,
    sector: Sector,
) -> Result<Option<Made>, NoMemory>
    requires server { a.0 < SERVERS }
    requires going { world.old.over ≡ false }
    requires fresh { IsFreshAt world.old a.0 }
    ensures core { core_at world.new ≡ core_at world.old }
    ensures made { IfOk result (IsMadeOf (core_at world.old) world.new (core.Issue a.0 sector.0)) }
{
    let write = server_write(world, a, sector);
    ready_write(world, a, sector, write)
}

/// Issue of the host, for its recovery.
pub(crate) fn ready_host_issue(world: &mut World, sector: Sector) -> Result<Option<Made>, NoMemory>
    requires going { world.old.over ≡ false }
    ensures core { core_at world.new ≡ core_at world.old }
    ensures made { IfOk result (IsMadeOf (core_at world.old) world.new (core.Issue host_party sector.0)) }
{
    world.refresh_recovery(ServerId::HOST)?;
    let write = host_write(world, sector);
    ready_write(world, ServerId::HOST, sector, write)
}

// ---- Arrive, Lose

// That the write with this ticket is made.
fn put_call(world: &World, ticket: Ticket) -> Call
    ensures { Asks (core_at world.now) (core.Arrive ticket.0) result }
{
    match world.flying(ticket) {
        Some((party, sector)) => Call::Put(ticket, party, sector),
        None => Call::Nothing,
    }
}

/// Arrive: room for what becomes of the write. Want of memory comes also where its arrival couldn't be carried out (`ready_arrive` of the world).
pub(crate) fn ready_arrive(world: &mut World, ticket: Ticket) -> Result<Option<Made>, NoMemory>
    ensures core { core_at world.new ≡ core_at world.old }
    ensures made { IfOk result (IsMadeOf (core_at world.old) world.new (core.Arrive ticket.0)) }
{
    if !world.may_arrive(ticket) {
        return Ok(None);
    }
    world.ready_arrive(ticket)?;
    Ok(Some(Made {
        ready: Ready::Arrive(ticket),
        call: put_call(world, ticket),
    }))
}

/// Lose: room for what becomes of the write.
pub(crate) fn ready_lose(world: &mut World, ticket: Ticket) -> Result<Option<Made>, NoMemory>
    ensures core { core_at world.new ≡ core_at world.old }
    ensures made { IfOk result (IsMadeOf (core_at world.old) world.new (core.Lose ticket.0)) }
{
    if !world.may_lose(ticket) {
        return Ok(None);
    }
    world.ready_lose(ticket)?;
    Ok(Some(Made {
        ready: Ready::Lose(ticket),
        call: Call::Nothing,
    }))
}
