//! What a recovery reads and reports of a log, over every run. Each law is the contract of a public function with an empty body.

ghost use Rattle.core_journals.specs.Logs.{RecoveriesReplayTheJournal};
ghost use Rattle.core_journals.specs.Reports.{RecoveriesBegan, RecoveriesReadTheLogAsItStood, RecoveriesReplayTheLogAsItStood, RecoveriesReportTheLogAsItStood};

use core_laws::leases_last;

/// Over every run from an opening each recovery at work began at some moment, and has been at work since. Over the logs of a disk what it reads is the log as it stood then: nothing else
/// writes the log while it reads. So once it has read all it replays the records of that log, and where it ends it reports the greatest operation among these, 0 where there is none.
pub fn recoveries_report_the_log_as_it_stood()
    ensures began { RecoveriesBegan }
    ensures reads { RecoveriesReadTheLogAsItStood }
    ensures replays { RecoveriesReplayTheLogAsItStood }
    ensures reports { RecoveriesReportTheLogAsItStood }
{
    leases_last();
}

/// While a log is recovered the journal of its server stays what it was when the recovery began. What the recovery replays are all records that the log reads as beside its journal,
/// though an earlier recoverer may have begun to seal it; but where the log was sealed already, some of the first may be gone, those that began in its oldest 64 numbers.
pub fn recoveries_replay_the_journal()
    ensures { RecoveriesReplayTheJournal }
{
    leases_last();
}
