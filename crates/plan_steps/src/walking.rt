// Where a path leads.
ghost use Rattle.std.specs.Prelude.{IfOk};
ghost use Rattle.disk_definitions.specs.Held.{Segments};
ghost use Rattle.plan_steps.specs.Looking.{LooksAtSpot};
ghost use Rattle.plan_steps.specs.Spots.{FindsSpot, IsStanding};

use crate::stop::Stop;
use dir_lookup::{Looked, Spot, walk_spot};
use frang_base::Path;
use usable_sectors::Usable;

/// Where a path leads, refusals of the walk included. What the walk looked at comes to `looked`.
pub fn walked(sectors: &Usable, path: &Path, looked: &mut Looked) -> Result<Spot, Stop>
    ensures finds { (held : Segments) → FindsSpot sectors.now.entries held path.now result }
    ensures stands { IfOk result IsStanding }
    ensures looks { (held : Segments) → LooksAtSpot sectors.now.entries held looked.old looked.new path.now result }
{
    let spot = walk_spot(sectors, path.as_slice(), looked)?;
    Ok(spot)
}
