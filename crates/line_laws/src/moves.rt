//! Laws of how covers move by lines, whose paths may lead through symbolic links: what the edits of a finished line say of covers, locks, directories
//! and bytes. Each law is the contract of a public function with an empty body. Crates that follow covers along histories rest on them. They stand on
//! the same laws of plans over paths without links, and on what a line comes to.

ghost use Rattle.line_laws.specs.Moves.{LinesMove, CoversFollowLines, LineMovesAreOwned, LineDirectoriesStay, LineBytesAreOwned};

/// Over the disk of a tree the edits of each finished line are tidy. So whatever tree the disk stands for after them, by whatever naming, each sector
/// is under the lock that the edits say, or under its own.
pub fn lines_move_what_they_take_and_free()
    ensures tidy { LinesMove }
    ensures covers { CoversFollowLines }
{}

/// Over the disk of a tree, a sector that a finished line moves was under a lock that the line holds alone, and so is the lock that it comes under.
pub fn moves_of_lines_are_owned()
    ensures owned { LineMovesAreOwned }
{}

/// Over the disk of a tree, a small block that is a directory's, or was one's, is so after the edits of a finished line.
pub fn directories_stay_through_lines()
    ensures stay { LineDirectoriesStay }
{}

/// Over the disk of a tree, a sector into which a finished line writes file bytes, or which it gives back, was under a lock that the line holds alone.
pub fn bytes_of_lines_are_owned()
    ensures owned { LineBytesAreOwned }
{}
