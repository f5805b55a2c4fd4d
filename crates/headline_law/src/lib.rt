//! **Every run keeps the headline**: at every prefix of what is witnessed along it, from the disk of every opening and for every script that was read. The law is the contract of a public function with an
//! empty body. It holds no code, and stands on the parts of the step law over runs and on the headline by them.
#![tactic(auto)]

ghost use Rattle.headline_definitions.specs.Laws.{RunsKeepTheHeadline};
ghost use Rattle.headline_runs.specs.Along.{EachStepIsKept};

use core_run_lines::{dirt_goes_on, lines_lead_on, logs_go_on_beside};
use core_run_logs::{named_journals_go_on, off_records_go_on};
use core_run_reports::{recoveries_keep_their_reports, what_stands_further_goes_on};
use core_runs::steps_are_kept_by_parts;
use headline_runs::runs_keep_the_headline_by_steps;

/// The step law over runs, with nothing open: from a moment at which all stands beside, each step of the core leads by events of the theorem on sectors that may happen to the next, and all stands beside that, whatever the
/// world began with.
pub fn each_step_is_kept()
    ensures kept { EachStepIsKept }
{
    steps_are_kept_by_parts();
    logs_go_on_beside();
    lines_lead_on();
    dirt_goes_on();
    what_stands_further_goes_on();
    recoveries_keep_their_reports();
}

/// Every run keeps the headline, at every prefix: what is witnessed along a run, from each beginning, of which faults tell of each call that failed. The lines said are a well-formed transcript of the script;
/// their history is legal and keeps what must be kept; each recovery says the greatest operation of its log; a stop leaves a disk that, its logs replayed, stands for the tree of a history that is legal and
/// keeps what must be kept; and no write puts an older version over a newer one.
pub fn runs_keep_the_headline()
    ensures keeps { RunsKeepTheHeadline }
{
    each_step_is_kept();
    named_journals_go_on();
    off_records_go_on();
    runs_keep_the_headline_by_steps();
}
