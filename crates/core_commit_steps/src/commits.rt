//! A Commit whole. Each law is the contract of a public function with an empty body.

ghost use Rattle.core_commit_steps.specs.Commits.{CommitsWithRecordsAreEvents, CommitsWithoutRecordsAreEvents};
ghost use Rattle.core_commit_steps.specs.Fits.{RecordsOfLinesFit};

use core_facts::{blocks_stay_whole, segments_are_needed_sole};
use core_laws::{each_key_stands_once, leases_last, one_recovery_is_under_way};
use line_locks::covers_of_set_bytes_are_found;

/// The record of a finished line that is numbered may stand in a log: over the one disk its plan makes a record, or changes nothing.
pub fn records_of_lines_fit()
    ensures fit { RecordsOfLinesFit }
{
    each_key_stands_once();
    blocks_stay_whole();
    segments_are_needed_sole();
}

/// From a moment of a run of lines whose line may commit, a Commit is Fetch of each claimed sector and Do of its operation, and without a record Reach and Ack behind it, up to the operation where the whole
/// log is on the disk, or acknowledged. These may happen, one after the other, and lead to a world of the next moment, whose history has the operation, and in which marks lie where operations end.
pub fn commits_are_events()
    ensures with_record { CommitsWithRecordsAreEvents }
    ensures without_record { CommitsWithoutRecordsAreEvents }
{
    each_key_stands_once();
    blocks_stay_whole();
    segments_are_needed_sole();
    covers_of_set_bytes_are_found();
    one_recovery_is_under_way();
    leases_last();
}
