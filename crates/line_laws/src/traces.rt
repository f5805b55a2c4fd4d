//! Laws of what a line has looked at, over sectors and bitmaps of a disk that stands for a tree: the sectors of its trace are its looks over the disk, in order,
//! up to the first that isn't at hand. Each is the contract of a public function with an empty body. The core of a server compares these sectors anew before
//! it commits. They stand on the traces of plans and on the laws of lines.

ghost use Rattle.line_laws.specs.Traced.{LinesFollowTheDisk, LinesFollowWhatIsAtHand};

/// Over sectors and bitmaps of a disk that stands for a tree, the sectors of a line's trace are those at which it looks over the disk, in order, up to the first
/// that isn't at hand. They are the same over the disk on which all that isn't at hand is zero.
pub fn lines_look_at_hand_as_over_the_disk()
    ensures disk { LinesFollowTheDisk }
    ensures at_hand { LinesFollowWhatIsAtHand }
{}
