// A server's lives, its writes and its locks: Doom, Die, Issue, Give, Renew, Resume; and the writes of the host.
ghost use Rattle.std.specs.Prelude.{◌≡◌, false};
ghost use Rattle.core_definitions.specs.Scripts.{host_party};
ghost use Rattle.world_parties.specs.States.{IsFresh};
ghost use Rattle.world_next.specs.NoEvents.{NoneOfDeath, NoneOfLease, NoneOfLocks, NoneOfWrites};
ghost use Rattle.world_next.specs.Picking.{PicksOf};

use frang_base::ServerId;
use hall_runs::Event;
use world_asks::{Asking, host_next_issue};
use world_state::World;

/// A server is doomed, or dies.
pub(crate) fn death_event(asking: &Asking) -> Option<Event>
    ensures { PicksOf asking.now.world (λ c. NoneOfDeath c asking.now.number) result }
{
    let a = asking.number();
    if asking.may_doom() {
        return Some(Event::Doom(a));
    }
    if asking.world().may_die(a) {
        return Some(Event::Die(a));
    }
    None
}

/// A server issues a write.
pub(crate) fn write_event(asking: &Asking) -> Option<Event>
    ensures { PicksOf asking.now.world (λ c. NoneOfWrites c asking.now.number) result }
{
    match asking.next_issue() {
        Some(sector) => Some(Event::Issue(asking.number(), sector)),
        None => None,
    }
}

/// A server gives a lock.
pub(crate) fn lock_event(asking: &Asking) -> Option<Event>
    ensures { PicksOf asking.now.world (λ c. NoneOfLocks c asking.now.number) result }
{
    match asking.next_given() {
        Some(lock) => Some(Event::Give(asking.number(), lock)),
        None => None,
    }
}

/// A server renews its lease, or goes on after its stall.
pub(crate) fn lease_event(world: &World, a: ServerId) -> Option<Event>
    ensures { PicksOf world.now (λ c. NoneOfLease c a.0) result }
{
    if world.may_renew(a) {
        return Some(Event::Renew(a));
    }
    if world.may_resume(a) {
        return Some(Event::Resume(a));
    }
    None
}

/// The host issues a write of its recovery.
pub(crate) fn host_write_event(world: &World) -> Option<Event>
    requires going { world.now.over ≡ false }
    requires fresh { IsFresh world.now.parties host_party }
    ensures { PicksOf world.now (λ c. NoneOfWrites c host_party) result }
{
    match host_next_issue(world) {
        Some(sector) => Some(Event::Issue(ServerId::HOST, sector)),
        None => None,
    }
}
