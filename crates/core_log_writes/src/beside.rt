//! What the laws on writes of logs ask of a moment beside its world. Each law is the contract of a public function.

ghost use Rattle.core_log_writes.specs.LogWrites.{LogsBeginOpen};
ghost use Rattle.core_log_writes.specs.Marks.{EndsAreMarks, EndsBegin};
ghost use Rattle.core_log_writes.specs.Quiet.{EndsGoOn, QuietRunsKeepMarks};

/// The core marks a dirty sector with the last number of the log at its change, the theorem on sectors with the operation. Where each mark of the core is where the journal has the operation
/// end, or both are acknowledged, the log is acknowledged up to the one exactly where the operations up to the other are, now and as more is acknowledged. At first nothing is dirty, so it is
/// so.
pub fn marks_lie_where_operations_end()
    ensures begin { EndsBegin }
    ensures marks { EndsAreMarks }
{}

/// Behind quiet events what is dirty was so before, with the same mark, and no log is known less. So marks lie where operations end still, where the dirty sectors of the core were dirty before
/// with the same marks, their logs aren't acknowledged less, and operations end where they did and are settled still.
pub fn quiet_events_leave_marks()
    ensures keep { QuietRunsKeepMarks }
    ensures on { EndsGoOn }
{}

/// The log of a dead server stands on the disk as its journal has it while the lease isn't over: at first no server is dead.
pub fn logs_begin_open()
    ensures { LogsBeginOpen }
{}
