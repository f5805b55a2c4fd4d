// Recoveries: Recover, Load, Look, Finish.
ghost use Rattle.std.specs.Prelude.{◌≡◌, ℕ, IfSome, IsTrue};
ghost use Rattle.std.specs.Option.{option_copied};
ghost use Rattle.core_definitions.specs.EndGuards.{CanLoad, CanLook, may_take};
ghost use Rattle.world_parties.specs.States.{IsFresh, recovery_in};
ghost use Rattle.world_state.specs.States.{core_at};
ghost use Rattle.world_next.specs.NoEvents.{NoneBegins, NoneOfRecovery};
ghost use Rattle.world_next.specs.Picking.{PicksOf};
ghost use Rattle.world_next.specs.Working.{recovery_at};

use frang_base::ServerId;
use frang_base::limits::SERVERS;
use hall_runs::Event;
use recovery_demon::Demon;
use world_state::World;

// ---- what one goes on with

// The recovery that a party carries out, where the party is a server that is up, or the host.
fn recovery(world: &World, by: ServerId) -> Option<&Demon>
    ensures is { recovery_in (option_copied result) ≡ recovery_at (core_at world.now) by.0 }
    ensures disk { IfSome (option_copied result) (λ r. r.segments ≡ world.now.parties.segments) }
    ensures fresh { IsFresh world.now.parties by.0 → IfSome (option_copied result) (λ r. IsTrue r.is_fresh) }
{
    if world.parties().is_worker(by) {
        world.parties().recovery(by)
    } else {
        None
    }
}

// The first slot that is to be read.
fn load_event(world: &World, by: ServerId) -> Option<Event>
    ensures { PicksOf world.now (λ c. (slot : ℕ) → CanLoad c by.0 slot → ⊥) result }
{
    let demon = recovery(world, by)?;
    let slot = demon.first_load()?;
    Some(Event::Load(by, slot))
}

// The first sector that is to be looked at.
fn look_event(world: &World, by: ServerId) -> Option<Event>
    requires { IsFresh world.now.parties by.0 }
    ensures { PicksOf world.now (λ c. (sector : ℕ) → CanLook c by.0 sector → ⊥) result }
{
    let demon = recovery(world, by)?;
    let sector = demon.first_look()?;
    Some(Event::Look(by, sector))
}

/// What the recovery that a party carries out does next, but its writes: it loads, looks, or is over.
pub(crate) fn recovery_event(world: &World, by: ServerId) -> Option<Event>
    requires { IsFresh world.now.parties by.0 }
    ensures { PicksOf world.now (λ c. NoneOfRecovery c by.0) result }
{
    if let Some(event) = load_event(world, by) {
        return Some(event);
    }
    if let Some(event) = look_event(world, by) {
        return Some(event);
    }
    if world.may_finish(by) {
        return Some(Event::Finish(by));
    }
    None
}

// ---- one that begins

// The first server that is up, or the host where none is.
fn first_taker(world: &World) -> ServerId
    ensures { IsTrue (may_take (core_at world.now) result.0) }
{
    for a in 0..SERVERS as u8 {
        if world.parties().is_up(ServerId(a)) {
            return ServerId(a);
        }
    }
    ServerId::HOST
}

// Who takes the next log that waits: the worker where it is up.
fn taker(world: &World, worker: ServerId) -> ServerId
    ensures { IsTrue (may_take (core_at world.now) result.0) }
{
    if world.parties().is_up(worker) {
        worker
    } else {
        first_taker(world)
    }
}

/// The recovery of a dead server's log begins, by the worker where it is up.
pub(crate) fn begin_recovery(world: &World, worker: ServerId) -> Option<Event>
    ensures { PicksOf world.now NoneBegins result }
{
    let by = taker(world, worker);
    for dead in 0..SERVERS as u8 {
        if world.may_recover(ServerId(dead), by) {
            return Some(Event::Recover(ServerId(dead), by));
        }
    }
    None
}
