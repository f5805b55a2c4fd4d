//! Laws of disks that stand for trees: a disk is sound by what its own sectors say exactly where it stands for a tree, the tree is then
//! the one that is read off it, and there is no other but for the births of its nodes. Each law is the contract of a public function with
//! an empty body. The reader of disks and the checker of images rest on them, and cite the lemmas of `proofs/` that say the same over
//! plain variables. It stands on the definitions of disks and trees.

ghost use Rattle.standing_laws.specs.Room.{SoundFits};
ghost use Rattle.standing_laws.specs.Laws.{SoundStands, ReadingHasNoDoubt, StandingIsSound, StandsForOne};

/// A sound disk stands for the tree that is read off it, whose births are the numbers of the inodes, and no cell of which is doubtful.
pub fn a_sound_disk_stands_for_what_is_read()
    ensures stands { SoundStands }
    ensures doubt { ReadingHasNoDoubt }
{}

/// A disk that stands for some tree is sound: so one that isn't sound stands for none.
pub fn a_disk_that_stands_is_sound()
    ensures sound { StandingIsSound }
{}

/// A disk stands for at most one tree, up to the births of its nodes: they are renamed one by one, the root's to the root's, and the nodes
/// are the same in names, kinds, links, sizes, blocks, times and targets, and in the cells that are bytes in both.
pub fn a_disk_stands_for_one_tree()
    ensures one { StandsForOne }
{}

/// The tree of a sound disk takes no more blocks than the segments have, and its targets have 1 to 384 bytes that may stand in one.
pub fn a_sound_disk_has_room()
    ensures fits { SoundFits }
{}
