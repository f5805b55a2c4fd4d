//! Journals account for the operations of their servers. Each law is the contract of a public function with an empty body.

ghost use Rattle.core_log_marks.specs.Steps.{AccountsBegin, AccountsStay, CommitsAreAccountedFor, MountsAreAccountedFor, OperationsAreAccountedFor, StandingIsDurable};

use core_journals::logs_read_as_their_journals;
use core_laws::the_opening_puts_the_disk;

/// Behind an opening no server is mounted and no log has records.
pub fn accounts_begin()
    ensures { AccountsBegin }
{
    the_opening_puts_the_disk();
}

/// The journal behind a mount accounts for all, where what was read is of durable operations: nothing was done since.
pub fn mounts_are_accounted_for()
    ensures { MountsAreAccountedFor }
{}

/// An operation of a server, with its record appended or without one, and so the operation of a Commit's line: its record stands last, or it ends where the last one did.
pub fn commits_are_accounted_for()
    ensures operation { OperationsAreAccountedFor }
    ensures commit { CommitsAreAccountedFor }
{}

/// Whatever else the history has (an operation, a mount or a recovery of another server, a sync), and whatever happens to a log but an Append, leaves that.
pub fn accounts_stay()
    ensures { AccountsStay }
{}

/// What stands in a log on the disk is of durable operations. So it is of a server that is off once it unmounts or is recovered, and of what its next mount reads.
pub fn standing_is_durable()
    ensures { StandingIsDurable }
{
    logs_read_as_their_journals();
}
