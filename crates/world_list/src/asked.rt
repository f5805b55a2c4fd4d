// A server that is asked.
ghost use Rattle.std.specs.Prelude.{◌≡◌, true};
ghost use Rattle.core_definitions.specs.LineGuards.{is_server};
ghost use Rattle.world_list.specs.Going.{AreStages, IsGoing};

use crate::stages::stage_in;
use frang_base::ServerId;
use line_stages::Stage;
use world_asks::Asking;
use world_state::World;

/// A server of a world, to be asked, with its stage as it was read.
pub(crate) fn asked<'a>(world: &'a World, stages: &[Option<Stage>], a: ServerId) -> Asking<'a>
    requires going { IsGoing world.now }
    requires stages { AreStages world.now stages.now }
    requires server { is_server a.0 ≡ true }
    ensures world { result.world ≡ world.now }
    ensures number { result.number ≡ a.0 }
{
    Asking::staged(world, a, stage_in(stages, a))
}
