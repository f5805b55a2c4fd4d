//! Every run keeps the headline, at every prefix of what is witnessed, by the step law over runs: at each moment of a run all that the five parts of the headline ask stands beside. Each law is the
//! contract of a public function:
//!
//! - **Moments**: at a moment with all that stands beside it the whole headline holds of what was witnessed until there, each part by its own law.
//! - **Asked**: each script that was read may be asked.
//! - **Along**: all of it stands beside the first moment of each beginning; and so at each moment of each run, from what is so at each step.
//! - **Laws**: so every run keeps the headline at every prefix.
//!
//! It holds no code. What it stands on that isn't proved here or below it is a premise of its laws, by its name.
#![tactic(auto)]

ghost use Rattle.headline_runs.specs.Along.{BeginningsAreKept, RunsStandAlong};
ghost use Rattle.headline_runs.specs.Asked.{ReadScriptsMayBeAsked};
ghost use Rattle.headline_runs.specs.Laws.{BeginningsKeepTheHeadline, EachPrefixHasItsFaults, RunsKeepTheHeadlineBySteps};
ghost use Rattle.headline_runs.specs.Moments.{MomentsKeepTheHeadline};

use core_histories::first_moments_are_told;
use core_lives::room_is_kept;
use core_log_marks::{logs_keep_what_is_durable, reports_are_of_journals};
use core_log_steps::logs_have_room;
use core_order::{
    first_moments_stand, logs_name_versions, recoveries_say_the_greatest, writes_are_in_order,
};
use core_runs::trees_stand_as_told;
use core_transcripts::runs_have_their_faults;
use core_tree_reads::runs_say_whole_transcripts;
use core_world::first_moments_are_worlds;
use headline_definitions::what_is_witnessed_tells_the_run;
use headline_histories::{
    a_disk_stands_behind_its_logs, closed_servers_keep_what_their_logs_have,
    the_live_history_is_kept, what_logs_leave_is_kept,
};
use opening_laws::an_opening_begins_histories;
use script_definitions::{
    scripts_ask_what_can_be_said, scripts_take_few_ticks, what_is_read_is_in_the_grammar,
};
use stop_laws::events_keep_sight;

/// At a moment of a run with all that stands beside it the five parts of the headline hold of what was witnessed until there, by faults that tell of each call that failed: the lines said are a well-formed
/// transcript, the lines of the tree included; the live history, and what a stop leaves, are legal and keep what must be kept, and the replayed disk stands for the tree; recoveries say what they keep; and
/// the order of writes.
pub fn moments_keep_the_headline()
    ensures moments { MomentsKeepTheHeadline }
{
    what_is_witnessed_tells_the_run();
    the_live_history_is_kept();
    what_logs_leave_is_kept();
    closed_servers_keep_what_their_logs_have();
    logs_keep_what_is_durable();
    recoveries_say_the_greatest();
    writes_are_in_order();
    first_moments_stand();
    runs_say_whole_transcripts();
    trees_stand_as_told::<bool>();
    a_disk_stands_behind_its_logs();
}

/// All of it stands at each moment of each run, where it does at the beginning, each step keeps what stands beside, the journals that are named go on, and the logs of servers that are off keep their records.
pub fn runs_stand_along()
    ensures along { RunsStandAlong }
{}

/// Each prefix of what is witnessed along a run is what is witnessed along a run of which the same faults tell.
pub fn each_prefix_has_its_faults()
    ensures through { EachPrefixHasItsFaults }
{}

/// Each script that was read may be asked, over the disk of an opening: its lines are few, ask what may be asked, and have numbers behind the births of the opening's tree and times that may stand in inodes.
pub fn read_scripts_may_be_asked()
    ensures asked { ReadScriptsMayBeAsked }
{
    what_is_read_is_in_the_grammar();
    scripts_ask_what_can_be_said();
    scripts_take_few_ticks();
}

/// All of it stands beside the first moment of each run from a beginning, whichever disk of an opening that is: nothing has happened, nobody is mounted, and the logs are zero.
pub fn beginnings_are_kept()
    ensures first { BeginningsAreKept }
{
    read_scripts_may_be_asked();
    first_moments_are_worlds();
    room_is_kept();
    first_moments_stand();
    an_opening_begins_histories();
    events_keep_sight();
    first_moments_are_told();
    logs_have_room();
    reports_are_of_journals();
    logs_name_versions();
}

/// So at the first moment of each beginning the whole headline holds, with nothing open: what is asked of a moment is met there.
pub fn beginnings_keep_the_headline()
    ensures first { BeginningsKeepTheHeadline }
{
    beginnings_are_kept();
    moments_keep_the_headline();
}

/// So every run keeps the headline at every prefix, by the step law over runs and by two laws of its steps, which are premises here.
pub fn runs_keep_the_headline_by_steps()
    ensures runs { RunsKeepTheHeadlineBySteps }
{
    runs_have_their_faults();
    each_prefix_has_its_faults();
    beginnings_are_kept();
    runs_stand_along();
    moments_keep_the_headline();
}
