// Whether the segments that a plan changes are held.
ghost use Rattle.std.specs.Prelude.{◌≡◌, ◌++◌, ◌/◌, map};
ghost use Rattle.frang_base.specs.declared.limits.TheConstants.{SEGMENT_BLOCKS};
ghost use Rattle.disk_definitions.specs.FilePlans.{large_segment};
ghost use Rattle.dir_lookup.specs.Looked.{Adds};
ghost use Rattle.plan_steps.specs.Looking.{looked_over};
ghost use Rattle.plan_steps.specs.Rooms.{missing_of, needed};

use dir_lookup::{Looked, Need};
use frang_base::Held;
use frang_base::limits::SEGMENT_BLOCKS;
use plan_steps::segment_held;

/// That the segments are held which keep the bits of these small blocks and of this large block. `Need` names the sector of the first
/// that isn't.
pub(crate) fn all_held(
    held: &Held,
    blocks: &[u32],
    large: Option<u32>,
    looked: &mut Looked,
) -> Result<(), Need>
    ensures needs { missing_of result ≡ needed held.now (map (λ k. k / SEGMENT_BLOCKS) blocks.now ++ large_segment large) }
    ensures looks { Adds looked.old looked.new (looked_over held.now (map (λ k. k / SEGMENT_BLOCKS) blocks.now ++ large_segment large)) }
{
    small_held(held, blocks, looked)?;
    large_held(held, large, looked)
}

fn small_held(held: &Held, blocks: &[u32], looked: &mut Looked) -> Result<(), Need>
    ensures needs { missing_of result ≡ needed held.now (map (λ k. k / SEGMENT_BLOCKS) blocks.now) }
    ensures looks { Adds looked.old looked.new (looked_over held.now (map (λ k. k / SEGMENT_BLOCKS) blocks.now)) }
{
    for block in blocks {
        segment_held(held, *block / SEGMENT_BLOCKS, looked)?;
    }
    Ok(())
}

// A large block's bit is in the segment of its number.
fn large_held(held: &Held, large: Option<u32>, looked: &mut Looked) -> Result<(), Need>
    ensures needs { missing_of result ≡ needed held.now (large_segment large) }
    ensures looks { Adds looked.old looked.new (looked_over held.now (large_segment large)) }
{
    match large {
        Some(segment) => segment_held(held, segment, looked),
        None => Ok(()),
    }
}
