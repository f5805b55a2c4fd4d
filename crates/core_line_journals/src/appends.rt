//! Records that are appended. Each law is the contract of a public function with an empty body.

ghost use Rattle.core_line_journals.specs.Appends.{CommitsAppend, CommitsFindRoom, CommitsWithoutRecords};

/// A Commit that may happen finds room in the log, where its record may stand in one and the log's numbers are small. One whose line has a record, for which there is room, leaves the journal of its server with that record appended: the ring of an Append is good; its operation is neither durable nor acknowledged, ends at
/// the last number, and is the last record. Without one the operation ends where the last one did, and is durable and acknowledged just where the log is to its end.
pub fn commits_append()
    ensures room { CommitsFindRoom }
    ensures append { CommitsAppend }
    ensures without { CommitsWithoutRecords }
{}
