// Where a path leads, and whether its walk looks up a name in a directory.
ghost use Rattle.std.specs.Prelude.{IfOk};
ghost use Rattle.disk_definitions.specs.Held.{Segments};
ghost use Rattle.plan_steps.specs.Looking.{LooksPassing};
ghost use Rattle.plan_steps.specs.Spots.{FindsPassing, IsStanding};

use dir_lookup::{Looked, Need, Spot, walk_passing};
use frang_base::Path;
use usable_sectors::Usable;

/// Where a path leads, and whether its walk looks up a name in the directory of this inode. What the walk looked at comes to
/// `looked`.
pub fn walk_passes(
    sectors: &Usable,
    path: &Path,
    inode: u32,
    looked: &mut Looked,
) -> Result<(Spot, bool), Need>
    ensures finds { (held : Segments) → FindsPassing sectors.now.entries held path.now inode result }
    ensures stands { IfOk result (λ p. IsStanding p.0) }
    ensures looks { (held : Segments) → LooksPassing sectors.now.entries held looked.old looked.new path.now inode result }
{
    walk_passing(sectors, path.as_slice(), inode, looked)
}
