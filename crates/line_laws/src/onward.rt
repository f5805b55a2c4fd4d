//! Laws of what a finished line leaves on the disk: its edits may be made there, and over the disk with its changes and its bytes the next line may be
//! planned, and so on, one line after another. Each law is the contract of a public function with an empty body. They stand on the laws of lines over
//! disks and of what edits write.

ghost use Rattle.line_laws.specs.Ready.{LinesMayBeMade};
ghost use Rattle.line_laws.specs.Onward.{FinishedLinesGoOn, OnwardStandsBelow};
ghost use Rattle.line_laws.specs.Turns.{LinesGoOn};

/// Over a disk that stands for a tree, with versions below their bound, with whatever segments of it at hand, and whatever its bytes of files are taken
/// for: the edits of a finished line may be made on the disk, where each block that counts as clear is zero.
pub fn edits_of_lines_may_be_made()
    ensures may { LinesMayBeMade }
{}

/// What a finished line leaves can be planned over again: the disk with its changes and its bytes stands for the tree after it, by the same parameters,
/// each sector of it is whole, and versions are at most one more than before. So it stands below the bound of versions again, while one is left.
pub fn what_a_finished_line_leaves_can_be_planned_over()
    ensures onward { FinishedLinesGoOn }
    ensures below { OnwardStandsBelow }
{}

/// Lines that finish over a disk one after another, each with what is at hand of the disk then, answer as the tree does, and the disk stands for the tree
/// after them, as long as versions are left.
pub fn lines_go_on()
    ensures on { LinesGoOn }
{}
