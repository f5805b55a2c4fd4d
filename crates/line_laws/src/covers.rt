//! Laws of the cover of a sector by what is at hand: a line looks at a block only once it has looked at the inode that has it, or where a held segment has it
//! free, so that what is at hand tells the lock that covers each sector at which it looks, and each that it needs. Each is the contract of a public function
//! with an empty body. The core of a server rests on them, which fetches a sector under the cover that is found so. They stand on the covers at hand, on the
//! laws of lines and on the traces of plans.

ghost use Rattle.line_laws.specs.Told.{LinesAreTold};
ghost use Rattle.line_laws.specs.Covers.{CoversAmongAreTrue, CoversAtHandAreTrue};

/// Over the disk of a tree, with segments of it at hand, each inode at which a line looks is in use, or a held segment has it free. Each block is one of a
/// node whose inode was looked at before, or a held segment has it free; a large block is one of a node whose inode was looked at before.
pub fn lines_look_at_what_they_were_told_of()
    ensures told { LinesAreTold }
{}

/// Over sectors and bitmaps of a disk that stands for a tree, of each sector at hand at which a line looks, and of the one that it needs, the cover by what
/// is at hand is the lock that covers it by the naming of the disk; and so is the cover by the nodes at whose inodes the line looked.
pub fn covers_at_hand_are_the_true_ones()
    ensures covers { CoversAtHandAreTrue }
    ensures looked { CoversAmongAreTrue }
{}
