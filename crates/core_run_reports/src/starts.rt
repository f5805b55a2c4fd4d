//! First moments. Each law is the contract of a public function.

ghost use Rattle.core_run_reports.specs.Laws.{FurtherStands};

use core_log_marks::{accounts_begin, reports_are_of_journals};
use core_log_steps::logs_stand_along_runs;
use core_order::logs_name_versions;
use opening_laws::each_start_is_an_opening;

/// At the first moment of each start what else is to stand beside it does, of a world that begins as it is.
pub fn what_stands_further_begins()
    ensures further { FurtherStands }
{
    each_start_is_an_opening();
    logs_stand_along_runs();
    accounts_begin();
    reports_are_of_journals();
    logs_name_versions();
}
