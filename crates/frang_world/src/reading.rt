// The sectors of the tree that the host reads: Read.
ghost use Rattle.std.specs.Prelude.{◌≡◌};
ghost use Rattle.core_definitions.specs.Events as core;
ghost use Rattle.hall_runs.specs.Asking.{heard_of};
ghost use Rattle.world_ready.specs.Making.{Fits};
ghost use Rattle.world_ready.specs.Trees.{IsSaidInTime};
ghost use Rattle.frang_world.specs.Steps.{IsStep};

use frang_base::Sector;
use hall_runs::Heard;
use host_tree::HostTree;
use world_ready::Ready;
use world_state::World;

/// A sector that the tree needs.
pub(crate) fn read(world: &mut World, tree: &mut HostTree, sector: Sector, heard: &Heard)
    requires fits { Fits world.old tree.old (Ready.Read sector) }
    requires disk { tree.old.segments ≡ world.old.parties.segments }
    requires said { IsSaidInTime tree.old }
    ensures { IsStep world.old tree.old world.new tree.new (core.Read sector.0) (heard_of heard.now) }
{
    match heard {
        Heard::Got(block) => tree.read(sector, block),
        Heard::GetFailed => world.host_failed(),
        Heard::Nothing => world.host_failed(),
    }
}
