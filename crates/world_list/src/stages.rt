// How far the line of each server has come, read once for all rows of the list.
ghost use Rattle.std.specs.Prelude.{◌≡◌, ◌<◌, IfOk, None, length, slice_index_or};
ghost use Rattle.world_list.specs.Going.{AreStages, IsGoing};

use frang_base::limits::SERVERS;
use frang_base::{NoMemory, ServerId};
use line_stages::Stage;
use std::alloc::Global;
use world_asks::stage_at;
use world_state::World;

/// The stages of the sixteen servers, by their numbers. Its one refusal is want of memory.
pub(crate) fn all_stages(alloc: Global, world: &World) -> Result<Vec<Option<Stage>>, NoMemory>
    requires { IsGoing world.now }
    ensures { IfOk result (λ stages. AreStages world.now stages.items) }
{
    let mut stages = Vec::new(alloc);
    for a in 0..SERVERS as u8 {
        stages.push(stage_at(world, ServerId(a)))?;
    }
    Ok(stages)
}

/// That of one server.
pub(crate) fn stage_in(stages: &[Option<Stage>], a: ServerId) -> Option<Stage>
    requires { a.0 < length stages.now }
    ensures { result ≡ slice_index_or stages.now a.0 None }
{
    stages[usize::from(a.0)]
}
