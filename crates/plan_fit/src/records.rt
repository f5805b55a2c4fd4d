//! What the edits of a plan write: that the sectors after the edits say what the edited store does, and that the changes and the bytes of
//! a record, laid over the disk, make these sectors but for their versions. Each law is the contract of a public function with an empty
//! body. It stands on the definitions of plans, stores and sectors.

ghost use Rattle.plan_fit.specs.Laws.{EachEditIsWritten, EditsAreWritten, RecordsAreWritten, RecordsFit};

/// After a fit edit the sectors are in their grammar and say what the edited store does. So it is after several.
pub fn edits_are_written()
    ensures each { EachEditIsWritten }
    ensures all { EditsAreWritten }
{}

/// The disk with the changes and the bytes of fit edits laid over it says what the edited store does, where it counts. It is in its grammar,
/// and no version rises by more than one.
pub fn records_are_written()
    ensures written { RecordsAreWritten }
{}

/// The changes of fit edits make a record: each is well formed, and their sectors ascend. How many there are, and of how many bytes, is said of
/// each operation.
pub fn changes_make_a_record()
    ensures fit { RecordsFit }
{}
