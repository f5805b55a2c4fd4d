// The host's lines and the end: HostLine, Close, Read, Show, End.
ghost use Rattle.std.specs.Prelude.{◌≡◌, ℕ};
ghost use Rattle.core_definitions.specs.EndGuards.{CanHost};
ghost use Rattle.world_next.specs.Fresh.{IsLineFresh};
ghost use Rattle.world_next.specs.NoEvents.{NoneCloses, NoneOfTree};
ghost use Rattle.world_next.specs.Over.{core_over};
ghost use Rattle.world_next.specs.Picking.{PicksBeside, PicksOf};

use frang_base::ServerId;
use frang_base::limits::SERVERS;
use hall_runs::Event;
use host_tree::HostTree;
use world_state::World;

/// The host's next line is answered.
pub(crate) fn host_line_event(world: &World) -> Option<Event>
    ensures { PicksOf world.now (λ c. (number : ℕ) → CanHost c number → ⊥) result }
{
    match world.next_line(ServerId::HOST) {
        Some(line) => {
            let number = line.number;
            if world.may_host(number) {
                Some(Event::HostLine(number))
            } else {
                None
            }
        }
        None => None,
    }
}

/// The first server that may be closed is.
pub(crate) fn close_event(world: &World) -> Option<Event>
    ensures { PicksOf world.now NoneCloses result }
{
    for a in 0..SERVERS as u8 {
        if world.may_close(ServerId(a)) {
            return Some(Event::Close(ServerId(a)));
        }
    }
    None
}

// ---- the tree

/// At rest the host reads the tree, then says it line by line, and then the end.
pub(crate) fn tree_event(world: &World, tree: &HostTree) -> Option<Event>
    requires disk { tree.now.segments ≡ world.now.parties.segments }
    requires line { IsLineFresh world.now tree.now }
    ensures { PicksBeside (core_over world.now tree.now) NoneOfTree result }
{
    if !world.is_at_rest() {
        return None;
    }
    if let Some(sector) = tree.first_needed() {
        return Some(Event::Read(sector));
    }
    match tree.line() {
        Some(_) => Some(Event::Show(tree.shown())),
        None => Some(Event::End),
    }
}
