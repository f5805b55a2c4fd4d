//! Laws of disks and of what is planned over them where the bytes of files are left out: a disk of a tree is one of its shape, and a plan makes a record
//! exactly where its entry is one that a removal may lose. Each is the contract of a public function with an empty body. They stand on the laws of
//! shapes and histories, and on those of plans and of what their edits write.

ghost use Rattle.line_laws.specs.Stores.{ShapesStand, BlankHandsStay, BlankFilesStay, DisksStandForShapes, DisksStandBelowForShapes};
ghost use Rattle.line_laws.specs.Records.{RecordsAreShapes, ChangesAreShapes, ChangesAtHandAreShapes, LinesRecordShapes, LineChangesAreShapes};

/// A store that is the picture of a tree is the picture of its shape, with the bytes of files as they are, with zeros for them, and with any others. So
/// are the segments at hand those of the blank store, and a disk that stands for a tree stands for its shape.
pub fn a_disk_of_a_tree_is_one_of_its_shape()
    ensures stores { ShapesStand }
    ensures hands { BlankHandsStay }
    ensures files { BlankFilesStay }
    ensures disks { DisksStandForShapes }
    ensures below { DisksStandBelowForShapes }
{}

/// A finished plan edits a sector with a version exactly where its entry, with the number and the time that were planned and the plan's reply, is one
/// that a removal may lose: it changes the shape of the tree, or it is a write, a fill or a truncate that was answered `ok`. So its changes make a record
/// exactly there, over the disk and with the sectors at hand. So it is of a line, whose paths may lead through links.
pub fn a_record_is_there_where_an_entry_may_be_lost()
    ensures edits { RecordsAreShapes }
    ensures changes { ChangesAreShapes }
    ensures at_hand { ChangesAtHandAreShapes }
    ensures lines { LinesRecordShapes }
    ensures line_changes { LineChangesAreShapes }
{}
