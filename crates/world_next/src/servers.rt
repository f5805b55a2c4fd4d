// All of one server, and all of the host.
ghost use Rattle.std.specs.Prelude.{◌≡◌, ◌<◌, false};
ghost use Rattle.frang_base.specs.declared.limits.TheConstants.{SERVERS};
ghost use Rattle.core_definitions.specs.Scripts.{host_party};
ghost use Rattle.world_asks.specs.Fresh.{AreAllFresh, IsFreshAt};
ghost use Rattle.world_parties.specs.States.{IsFresh};
ghost use Rattle.world_next.specs.NoEvents.{NoneOfHost, NoneOfServer, NoneOfServers};
ghost use Rattle.world_next.specs.Picking.{PicksOf};

use crate::ends::host_line_event;
use crate::lines::line_event;
use crate::lives::{death_event, host_write_event, lease_event, lock_event, write_event};
use crate::recoveries::recovery_event;
use frang_base::ServerId;
use frang_base::limits::SERVERS;
use hall_runs::Event;
use world_asks::Asking;
use world_state::World;

/// What a server does next: its line, its doom and death, its writes, its locks, its lease, and the log that it recovers.
pub(crate) fn server_event(world: &World, a: ServerId) -> Option<Event>
    requires server { a.0 < SERVERS }
    requires going { world.now.over ≡ false }
    requires fresh { IsFreshAt world.now a.0 }
    ensures { PicksOf world.now (λ c. NoneOfServer c a.0) result }
{
    let asking = Asking::new(world, a);
    if let Some(event) = line_event(&asking) {
        return Some(event);
    }
    if let Some(event) = death_event(&asking) {
        return Some(event);
    }
    if let Some(event) = write_event(&asking) {
        return Some(event);
    }
    if let Some(event) = lock_event(&asking) {
        return Some(event);
    }
    if let Some(event) = lease_event(world, a) {
        return Some(event);
    }
    recovery_event(world, a)
}

/// What the first server that does something does.
pub(crate) fn any_server_event(world: &World) -> Option<Event>
    requires going { world.now.over ≡ false }
    requires fresh { AreAllFresh world.now }
    ensures { PicksOf world.now NoneOfServers result }
{
    for a in 0..SERVERS as u8 {
        if let Some(event) = server_event(world, ServerId(a)) {
            return Some(event);
        }
    }
    None
}

/// What the host does next: the log that it recovers, and its next line.
pub(crate) fn host_event(world: &World) -> Option<Event>
    requires going { world.now.over ≡ false }
    requires fresh { IsFresh world.now.parties host_party }
    ensures { PicksOf world.now NoneOfHost result }
{
    if let Some(event) = recovery_event(world, ServerId::HOST) {
        return Some(event);
    }
    if let Some(event) = host_write_event(world) {
        return Some(event);
    }
    host_line_event(world)
}
