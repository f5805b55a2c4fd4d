//! Finished lines as outcomes. Each law is the contract of a public function with an empty body.

ghost use Rattle.core_commits.specs.Finished.{FinishedLinesAreOutcomes};
ghost use Rattle.core_commits.specs.Operations.{FinishedLinesMayBeDone};

/// A finished line of the core is an outcome over the logical sectors that keeps the guards of plans, says what the line does, and makes of bytes what the line makes of them.
pub fn finished_lines_are_outcomes()
    ensures outcome { FinishedLinesAreOutcomes }
{}

/// Where the number of a finished line is new and what it claims is cached clean, the claimed sectors may be fetched, and then its operation may be done: its locks are held, what it changes and
/// reads is cached, and what it claims is zeros.
pub fn finished_lines_may_be_done()
    ensures done { FinishedLinesMayBeDone }
{}
