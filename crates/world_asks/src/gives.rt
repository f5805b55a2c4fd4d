// Which lock it may give next: Give.
ghost use Rattle.std.specs.Prelude.{◌≡◌};
ghost use Rattle.core_definitions.specs.WriteGuards.{may_give};
ghost use Rattle.lock_definitions.specs.Order.{number_of};
ghost use Rattle.world_asks.specs.Asking.{core_of};
ghost use Rattle.world_asks.specs.Gives.{IsOneLock};
ghost use Rattle.world_state.specs.States.{core_at};

use crate::asking::Asking;
use frang_base::{LockId, ServerId};
use world_state::World;

// The number of a lock among those of its kind.
fn number_of(lock: LockId) -> u32
    ensures { result ≡ number_of lock }
{
    match lock {
        LockId::Log(number) => u32::from(number),
        LockId::Segment(number) | LockId::Node(number) => number,
    }
}

// A lock that a server of a world may give.
fn given_next(world: &World, a: ServerId) -> Option<LockId>
    ensures { IsOneLock (may_give (core_at world.now) a.0) result }
{
    let table = world.locks();
    // Its claims ascend by lock.
    let _held = table.held(a, LockId::Log(a.0));
    for place in 0..usize::MAX {
        let Some((lock, _)) = table.asked_at(a, place) else {
            return None;
        };
        if world.may_give(a, lock) {
            return Some(lock);
        }
        // There are fewer locks than places.
        let _number = number_of(lock);
    }
    unreachable!()
}

impl<'a> Asking<'a> {
    /// A lock that it may give. `None` exactly where there is none. It takes no memory, and time for each lock that it is asked for.
    pub fn next_given(&self) -> Option<LockId>
        ensures { IsOneLock (may_give (core_of self.now) self.now.number) result }
    {
        given_next(self.world(), self.number())
    }
}
