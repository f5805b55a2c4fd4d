//! What recoveries keep. Each law is the contract of a public function with an empty body.

ghost use Rattle.core_log_marks.specs.Keeping.{LogsKeepWhatIsDurable, RecoveriesKeepWhatTheyReport, ReportsBegin, ReportsStay};

use core_facts::slots_read_are_the_disks;
use core_histories::tellings_settle_and_stand;
use core_journals::logs_read_as_their_journals;
use core_laws::leases_last;

/// A recovery at work that has read its log has read what the journal of its dead server reads as, or what a seal leaves of that. So it is at first, where nobody recovers, and each step
/// keeps it.
pub fn reports_are_of_journals()
    ensures begin { ReportsBegin }
    ensures stay { ReportsStay }
{
    slots_read_are_the_disks();
    leases_last();
}

/// At a stop, of each server that isn't off: since its last mount no operation with a record lies above the greatest number of its log and not above the durable one, and the first
/// above that one has a record.
pub fn logs_keep_what_is_durable()
    ensures { LogsKeepWhatIsDurable }
{
    logs_read_as_their_journals();
    tellings_settle_and_stand();
}

/// And at the end of a recovery by the number that it reports, whether an earlier recoverer had begun to seal the log, had sealed it, or not.
pub fn recoveries_keep_what_they_report()
    ensures { RecoveriesKeepWhatTheyReport }
{
    tellings_settle_and_stand();
}
