//! Which sectors lines make dirty. Each law is the contract of a public function with an empty body.

ghost use Rattle.run_laws.specs.Sights.{AFreshDiskIsSeen, WhoSeesTreesStaysOnDisk};

/// A line that sees cached sectors and bitmaps of a disk that stands for a tree makes only sectors in regions of the disk dirty: the changes of its record and the
/// bytes that it sets lie in range, and a block that it clears is one of a segment that it holds. Such are the sectors of a fresh disk with its segment held.
pub fn who_sees_a_tree_stays_on_the_disk()
    ensures lines { WhoSeesTreesStaysOnDisk }
    ensures fresh { AFreshDiskIsSeen }
{}
