//! Laws of how covers move: by a plan's edits alone, which lock covers each sector after them. Sectors go from lock to lock as inodes and blocks are
//! taken and freed, under locks that are held alone. Each law is the contract of a public function with an empty body. Crates that follow covers
//! along histories rest on them. They stand on the definitions of plans and on the laws of what their locks cover.

ghost use Rattle.plan_laws.specs.Moves.{CoversMove};
ghost use Rattle.plan_laws.specs.Plans.{PlansMove, CoversFollowPlans, MovesAreOwned, DirectoriesStay, BytesAreOwned};

/// Between two disks that are pictures of trees, by whatever namings, tidy edits move each sector as they say: an inode or a block that is taken goes
/// under its node's lock, one that is freed under its segment's, and each other sector stays under its own.
pub fn covers_follow_the_moves()
    ensures moves { CoversMove }
{}

/// Over the disk of a tree the edits of each finished plan are tidy. So whatever tree the disk stands for after them, by whatever naming, each sector
/// is under the lock that the edits say, or under its own.
pub fn plans_move_what_they_take_and_free()
    ensures tidy { PlansMove }
    ensures covers { CoversFollowPlans }
{}

/// Over the disk of a tree, a sector that a finished plan moves was under a lock that the plan holds alone, and so is the lock that it comes under.
pub fn moves_are_owned()
    ensures owned { MovesAreOwned }
{}

/// Over the disk of a tree, a small block that is a directory's, or was one's, is so after the edits of a finished plan.
pub fn directories_stay()
    ensures stay { DirectoriesStay }
{}

/// Over the disk of a tree, a sector into which a finished plan writes file bytes, or which it gives back, was under a lock that the plan holds alone.
pub fn bytes_are_owned()
    ensures owned { BytesAreOwned }
{}
