//! The locks of a line, found without its plan: of a finished line by the inodes at which it looked, its reply and its edits, of one that has a block cleared by
//! the inodes and the operation to which its walks lead. Laws that what is found is as good as the line's own locks over a disk that stands for a tree. Each law
//! is the contract of a public function with an empty body. The core finds the locks that a line needs so. They stand on the definitions of lines and of sets of
//! locks, and on the laws of lines.
#![tactic(auto)]

ghost use Rattle.line_locks.specs.Lines.{ClearLocksAreFound, FinishLocksAreFound, NumbersTellNodes, SetCoversAreTrue};
ghost use Rattle.line_locks.specs.Same.{AlikeLocksJoinAlike, AlikeLocksLackAlike, SetsAreAlike};

/// Over sectors and bitmaps of a disk that stands for a tree, each lock of a line that is finished or has a block cleared is among those that are found, in its
/// mode or sole, and the other way round. The nodes by whose inodes they are found are told by the numbers of the sectors at which it looked, those of file
/// bytes left out or not.
pub fn locks_of_lines_are_found()
    ensures finished { FinishLocksAreFound }
    ensures cleared { ClearLocksAreFound }
    ensures nodes { NumbersTellNodes }
{}

/// Over sectors and bitmaps of a disk that stands for a tree, of the file bytes that a finished line sets, the cover by the nodes at whose inodes it looked is the
/// lock that covers them by the naming of the disk.
pub fn covers_of_set_bytes_are_found()
    ensures covers { SetCoversAreTrue }
{}

/// A set of locks grows alike by such lists, and lacks one of each or none. The set of a list is such a list too.
pub fn alike_locks_are_as_good()
    ensures join { AlikeLocksJoinAlike }
    ensures lack { AlikeLocksLackAlike }
    ensures sets { SetsAreAlike }
{}
