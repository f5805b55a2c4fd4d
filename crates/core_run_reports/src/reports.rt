//! What recoveries keep. Each law is the contract of a public function.

ghost use Rattle.core_run_reports.specs.Laws.{ReportsAreKept};

use core_log_marks::recoveries_keep_what_they_report;

/// At a moment at which all stands beside, a recovery that ends keeps by the number that it reports what it keeps by the world's.
pub fn recoveries_keep_their_reports()
    ensures kept { ReportsAreKept }
{
    recoveries_keep_what_they_report();
}
