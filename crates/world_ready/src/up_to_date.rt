// What is kept beside a world and beside what its host has read is made up to date.
ghost use Rattle.std.specs.Prelude.{◌≡◌, OnOk};
ghost use Rattle.world_state.specs.States.{core_at};
ghost use Rattle.world_next.specs.Fresh.{IsFresh, IsLineFresh};
ghost use Rattle.world_ready.specs.Trees.{IsSaidInTime, SameReading};

use frang_base::NoMemory;
use host_tree::HostTree;
use std::alloc::Global;
use world_asks::refresh_all;
use world_state::World;

// At rest, once the tree is read, its next line is made.
fn refresh_line(world: &World, tree: &mut HostTree) -> Result<(), NoMemory>
    requires { IsSaidInTime tree.old }
    ensures reading { SameReading tree.old tree.new }
    ensures ok { OnOk result (IsLineFresh world.now tree.new) }
{
    if !world.is_at_rest() {
        return Ok(());
    }
    if !tree.is_read() {
        return Ok(());
    }
    tree.make_line()?;
    Ok(())
}

/// All that is kept beside the parties of a world, and the next line of the tree, is made up to date, so that it may be asked for the next event. The core is the same, whatever the answer.
/// Its one refusal is want of memory, which it says too where a line can't be planned or has no time (`refresh_all` of what is asked).
pub fn refresh(alloc: Global, world: &mut World, tree: &mut HostTree) -> Result<(), NoMemory>
    requires { IsSaidInTime tree.old }
    ensures core { core_at world.new ≡ core_at world.old }
    ensures reading { SameReading tree.old tree.new }
    ensures ok { OnOk result (IsFresh world.new tree.new) }
{
    refresh_all(alloc, world)?;
    refresh_line(world, tree)
}
