//! What finished lines tell of room, and what they take of it for directories.

ghost use Rattle.room_laws.specs.Growth.{GrowsWithTheTree, LinesGainOrFree, LinesGrowWithTheTree};
ghost use Rattle.room_laws.specs.Room.{AnswersTellTheirNumber, RefusedLinesHoldAll};

/// A line over the disk of a tree that is refused for want of room has the lock of each segment alone.
pub fn refused_lines_hold_all_segments()
    ensures all { RefusedLinesHoldAll }
{}

/// The number of directories' blocks that an answer tells is the one that the operation was performed with.
pub fn answers_tell_their_number()
    ensures number { AnswersTellTheirNumber }
{}

/// A finished line either gives no directory a block that never was one's, or frees no block. So the number of blocks that are or were a directory's grows at most by so
/// many as the directories of the tree have more.
pub fn directories_grow_with_the_tree()
    ensures one { LinesGainOrFree }
    ensures stores { GrowsWithTheTree }
    ensures lines { LinesGrowWithTheTree }
{}
