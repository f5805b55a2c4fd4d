// The next event.
ghost use Rattle.std.specs.Prelude.{◌≡◌, IfSome, None, false, true};
ghost use Rattle.core_definitions.specs.Events.{Event as CoreEvent};
ghost use Rattle.core_definitions.specs.Guards.{Can, CanOther};
ghost use Rattle.hall_runs.specs.Asking.{event_of};
ghost use Rattle.world_next.specs.Fresh.{IsFresh};
ghost use Rattle.world_next.specs.NoEvents.{NoneBeside, NoneOther, is_of_flight};
ghost use Rattle.world_next.specs.Over.{core_over};
ghost use Rattle.world_next.specs.Picking.{Picks, PicksBeside, PicksSure};
ghost use Rattle.world_asks.specs.Fresh.{AreAllFresh};

use crate::clock::tick_event;
use crate::ends::{close_event, tree_event};
use crate::flights::flight_event;
use crate::recoveries::begin_recovery;
use crate::servers::{any_server_event, host_event, server_event};
use frang_base::ServerId;
use hall_runs::Event;
use host_tree::HostTree;
use world_parties::is_server;
use world_state::World;

// What the worker's own server does, if it is one.
fn own_event(world: &World, worker: ServerId) -> Option<Event>
    requires going { world.now.over ≡ false }
    requires fresh { AreAllFresh world.now }
    ensures { PicksSure world.now result }
{
    if is_server(worker) {
        server_event(world, worker)
    } else {
        None
    }
}

// The next event of any server, of the host, or of none, but a tick and what becomes of writes in flight.
fn event_beside(world: &World, tree: &HostTree, worker: ServerId) -> Option<Event>
    requires going { world.now.over ≡ false }
    requires disk { tree.now.segments ≡ world.now.parties.segments }
    requires fresh { IsFresh world.now tree.now }
    ensures { PicksBeside (core_over world.now tree.now) NoneBeside result }
{
    if let Some(event) = any_server_event(world) {
        return Some(event);
    }
    if let Some(event) = begin_recovery(world, worker) {
        return Some(event);
    }
    if let Some(event) = host_event(world) {
        return Some(event);
    }
    if let Some(event) = close_event(world) {
        return Some(event);
    }
    tree_event(world, tree)
}

// The next event but a tick.
fn other_event(world: &World, tree: &HostTree, worker: ServerId) -> Option<Event>
    requires going { world.now.over ≡ false }
    requires disk { tree.now.segments ≡ world.now.parties.segments }
    requires fresh { IsFresh world.now tree.now }
    ensures { Picks (core_over world.now tree.now) NoneOther result }
{
    if let Some(event) = own_event(world, worker) {
        return Some(event);
    }
    if let Some(event) = flight_event(world) {
        return Some(event);
    }
    event_beside(world, tree, worker)
}

/// An event that may happen, first of the worker's own server. `None` exactly where none may. It takes no memory, and for each party the same number of questions.
pub fn next(world: &World, tree: &HostTree, worker: ServerId) -> Option<Event>
    requires going { world.now.over ≡ false }
    requires disk { tree.now.segments ≡ world.now.parties.segments }
    requires fresh { IsFresh world.now tree.now }
    ensures some { IfSome result (λ event. Can (core_over world.now tree.now) (event_of event)) }
    ensures none { result ≡ None → (event : CoreEvent) → Can (core_over world.now tree.now) event → ⊥ }
{
    match other_event(world, tree, worker) {
        Some(event) => Some(event),
        None => tick_event(world),
    }
}

/// An event that may happen, but a tick and what becomes of writes in flight, first of the worker's own server. `None` exactly where none of these may. It takes no memory.
pub fn next_beside_flights(world: &World, tree: &HostTree, worker: ServerId) -> Option<Event>
    requires going { world.now.over ≡ false }
    requires disk { tree.now.segments ≡ world.now.parties.segments }
    requires fresh { IsFresh world.now tree.now }
    ensures some { IfSome result (λ event. CanOther (core_over world.now tree.now) (event_of event)) }
    ensures kind { IfSome result (λ event. is_of_flight (event_of event) ≡ false) }
    ensures none { result ≡ None → (event : CoreEvent) → CanOther (core_over world.now tree.now) event → is_of_flight event ≡ true }
{
    if let Some(event) = own_event(world, worker) {
        return Some(event);
    }
    event_beside(world, tree, worker)
}
