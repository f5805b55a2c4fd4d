//! Which sectors lines look at, need and set: laws of the plans of lines over the disk of a tree. Each law is the contract of a public function with an empty body. The events of a line of the core rest on
//! them: what a line looks at is fetched on the side that counts, and what it sets is one block a sector. They stand on the plans of lines as plans over the sectors.
#![tactic(auto)]

ghost use Rattle.line_sectors.specs.Looks.{LinesLookAtDirectories, LinesLookAtVersions, LinesNeedDirectories};
ghost use Rattle.line_sectors.specs.Sets.{DoneLinesHaveWhatTheyClaim, DoneLinesSetSectorsOnce, LinesSetSectorsOnce};

/// Over the disk of a tree, each directory's sector at which a line looks is of a block that is or was a directory's, or of one that nobody has, that never was a directory's, and that is known to be zero. So
/// over the whole disk, each sector with a version at which a line looks, or that it changes, has one by what the disk says, or is of a block that nobody has and that never was a directory's; and a directory's
/// sector that a line needs is of a block that is or was a directory's, as the sectors of a block that is known to be zero are at hand.
pub fn lines_look_at_directories()
    ensures looks { LinesLookAtDirectories }
    ensures versions { LinesLookAtVersions }
    ensures needs { LinesNeedDirectories }
{}

/// Over the disk of a tree to which its number is new, a finished line sets each sector of file bytes once, also where it is finished over sectors and bitmaps of a whole disk.
pub fn lines_set_sectors_once()
    ensures once { LinesSetSectorsOnce }
    ensures at_hand { DoneLinesSetSectorsOnce }
{}

/// Over a whole disk, the sectors that a finished line makes a directory's are at hand.
pub fn finished_lines_have_what_they_claim()
    ensures claims { DoneLinesHaveWhatTheyClaim }
{}
