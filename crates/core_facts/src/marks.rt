//! The marks of dirty sectors, over every run. Each law is the contract of a public function with an empty body.

ghost use Rattle.core_facts.specs.Marks.{MarksAreOfTheLog};

/// Over every run from an opening the mark of a dirty sector, up to which the log has to be acknowledged before the sector may be written, is no later than the last number of its
/// server's log. So a log that is acknowledged to its end keeps no sector back.
pub fn marks_are_of_the_log()
    ensures marks { MarksAreOfTheLog }
{}
