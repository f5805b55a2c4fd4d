//! Records that are read. Each law is the contract of a public function with an empty body.

ghost use Rattle.core_log_marks.specs.LastRecords.{LastRecordsAreRead};

/// Of each record since the mount that ends at the end of its good log or before, one whose operation isn't below is among those that are read, and also among those that a seal leaves: the
/// records follow one another closely, so the last that stands whole begins at most 18 numbers before the end.
pub fn last_records_are_read()
    ensures { LastRecordsAreRead }
{}
