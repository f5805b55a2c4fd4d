//! Histories of lines: every run of servers over the sectors of a disk, whose operations are planned as lines are, is of one file tree, also where
//! recoveries removed operations. Each law is the contract of a public function with an empty body. It stands on the plans of lines as plans over the
//! sectors, on the laws of shapes, and on the theorem on sectors.

ghost use Rattle.line_histories.specs.Laws.{LinesMeetTheTree, LinesComeToOutcomes, HistoriesAreOfOneTree, WorldsAreOfOneTree, RunsAreOfOneTree, AllFollow, AllFollowInWorlds, LinesKeepKinds};

/// Over sectors that stand for the shape of a file tree, the plan of a line with a new number answers as the tree does when it performs the line, bytes
/// aside, and its changes lead to sectors that stand for the shape of the tree after it: the premise on trees of the theorem on sectors. With all segments
/// at hand there is an outcome.
pub fn lines_meet_the_tree()
    ensures meets { LinesMeetTheTree }
    ensures comes { LinesComeToOutcomes }
{}

/// A legal history of lines with new numbers is of one file tree: its answers are the tree's, bytes aside, and the sectors stand for the shape of the
/// tree after it. So it is at each moment of servers over one disk, and after each run of them: of what was done, and of what recoveries of all logs
/// would leave of it, for whose tree the sectors with versions of the replayed disk stand.
pub fn histories_are_of_one_tree()
    ensures histories { HistoriesAreOfOneTree }
    ensures worlds { WorldsAreOfOneTree }
    ensures runs { RunsAreOfOneTree }
{}

/// What the sectors with versions say of the first disk, they say along every legal history of lines, and so of what recoveries leave: the lock under
/// which the history moved a sector is its cover by whatever naming of the disk; the sectors with versions are those of segments, of inodes and of the
/// blocks that are or were a directory's; the sectors of a block that no node has, and that never was a directory's, are free; and those that hold bytes
/// of a file below its size aren't: they were written since they were taken.
pub fn covers_kinds_and_free_sectors_follow()
    ensures histories { AllFollow }
    ensures worlds { AllFollowInWorlds }
{}

/// Along a legal history of lines, each sector that a line changes has a version after it, and each that it writes or frees as bytes has none: what is
/// changed is a segment's, an inode's, or a part of a block that is a directory's then; file bytes go into blocks in use for them, and what is given
/// back counts as never a directory's.
pub fn lines_keep_kinds()
    ensures { LinesKeepKinds }
{}
