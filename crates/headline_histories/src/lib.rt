//! What the headline says of histories, at a moment of a run of the core with what stands beside it: that the live history and the one that a stop leaves are legal and keep what must be kept, and that the
//! disk with all logs replayed stands for the tree of what a stop leaves. Each law is the contract of a public function:
//!
//! - **Starts**: a world keeps what it began with; so it has what a history of lines asks of its first disk, where that is the disk of an opening.
//! - **Live**: the second part of the headline.
//! - **Left**: the fourth part, where the logs keep what is durable and the replayed disk is the world's.
//! - **Closed**: they do, servers that were closed too, by the records that a log has since its server's last mount.
//! - **Off**: how logs keep these records while their servers are off.
//! - **Replays**: it is, by what stands of the logs.
//! - **Rest**: where no death was said nothing is removed, and where the end was said the run's disk stands for the tree of the live history.
//!
//! It holds no code and stands on the laws of what histories keep, of stops and of rest, on what the lines said tell, and on what a run begins from.
#![tactic(auto)]

ghost use Rattle.headline_histories.specs.Closed.{ClosedServersKeepTheirs};
ghost use Rattle.headline_histories.specs.First.{FirstMomentsMeetWhatIsAsked};
ghost use Rattle.headline_histories.specs.Left.{DisksStandBehindLogs, MomentsKeepWhatIsLeft};
ghost use Rattle.headline_histories.specs.Live.{MomentsKeepTheLive};
ghost use Rattle.headline_histories.specs.OffLogs.{LeavingLogsHaveTheirRecords, OffLogsAreUntouched, OffLogsKeepTheirRecords};
ghost use Rattle.headline_histories.specs.Replays.{MomentsKeepWhatLogsLeave, OthersStayEmpty, ReplaysAreAsTheWorlds};
ghost use Rattle.headline_histories.specs.Rest.{DeathlessCachesStand, DeathlessHistoriesStay, NothingIsRemoved, QuietDisksStandForTheLive, TheEndLeavesTheTree};
ghost use Rattle.headline_histories.specs.Starts.{EventsKeepStarts, FirstMomentsBeginSo, RunsKeepStarts, WorldsAreOverCountedDisks};

use core_histories::{
    first_moments_are_told, phases_are_told, stops_stand_for_what_was_said,
    tellings_settle_and_stand,
};
use core_journals::logs_stand_good;
use core_laws::{leases_last, nothing_follows_the_end, who_rests_has_nothing, writes_stand_once};
use core_readings::{logs_begin_beside, replays_are_the_worlds, seals_come_behind};
use core_transcripts::{
    read_scripts_are_numbered, read_scripts_are_transcribed, runs_have_their_faults,
    the_end_is_told,
};
use core_world::first_moments_are_worlds;
use headline_definitions::{the_logs_of_a_disk_are_meant, what_is_witnessed_tells_the_run};
use kept_laws::{
    closed_servers_keep_and_are_legal, histories_are_legal, recoveries_keep_what_is_known,
};
use opening_laws::{an_opening_begins_histories, each_start_is_an_opening};
use rest_laws::{
    a_disk_at_rest_stands, a_quiet_disk_stands, a_stop_stands_by_the_lines,
    caches_laid_over_the_disk_stand,
};
use stop_laws::{events_keep_sight, stops_leave_what_lines_tell};

/// A world keeps what it began with, over every run of its events; so where it began over the disk of an opening, as the world of the core's first moment does, it has what a history of lines asks of its first disk.
pub fn worlds_keep_what_they_began_with()
    ensures events { EventsKeepStarts }
    ensures runs { RunsKeepStarts }
    ensures first { FirstMomentsBeginSo }
    ensures disks { WorldsAreOverCountedDisks }
{
    an_opening_begins_histories();
}

/// At each moment of a run the live history is legal, and what must be kept is kept.
pub fn the_live_history_is_kept()
    ensures kept { MomentsKeepTheLive }
{
    worlds_keep_what_they_began_with();
    what_is_witnessed_tells_the_run();
    recoveries_keep_what_is_known();
    histories_are_legal();
}

/// A disk stands for a tree by its parameters and by what lies behind the logs, whatever the logs have.
pub fn a_disk_stands_behind_its_logs()
    ensures stands { DisksStandBehindLogs }
{}

/// What a stop leaves at a moment of a run, by the lines said, is legal, what must be kept is kept, and the disk with all logs replayed stands for the tree of it. Asked is that each server keeps by the greatest
/// number of its log what is durable, one that was closed too, and that the replayed disk is the world's.
pub fn what_is_left_is_kept()
    ensures kept { MomentsKeepWhatIsLeft }
{
    worlds_keep_what_they_began_with();
    what_is_witnessed_tells_the_run();
    the_logs_of_a_disk_are_meant();
    phases_are_told();
    stops_leave_what_lines_tell();
    recoveries_keep_what_is_known();
    histories_are_legal();
    closed_servers_keep_and_are_legal();
    a_stop_stands_by_the_lines();
    stops_stand_for_what_was_said();
}

/// A server that was closed, and so is up by the lines said, keeps what is durable where its log has the records of its last mount: by the lines of a transcript who isn't off was mounted, and not recovered since, and
/// all that a server did that is off in the world is durable.
pub fn closed_servers_keep_what_their_logs_have()
    ensures closed { ClosedServersKeepTheirs }
{
    worlds_keep_what_they_began_with();
    what_is_witnessed_tells_the_run();
    tellings_settle_and_stand();
    read_scripts_are_transcribed();
    runs_have_their_faults();
}

/// Over every run nothing is written in the log of a server that is off; so while the history goes on by others it has the records of its last mount, where it had them. And a server that leaves, by an unmount or a close, has
/// them: all that it did is durable then, and it kept what is durable.
pub fn logs_of_servers_that_are_off_go_on()
    ensures untouched { OffLogsAreUntouched }
    ensures keep { OffLogsKeepTheirRecords }
    ensures leave { LeavingLogsHaveTheirRecords }
{
    leases_last();
    writes_stand_once();
    tellings_settle_and_stand();
}

/// The disk with all logs replayed is the world's at each sector that lies in no log, whether it has a version or not: one without is named by no record of a log that a replay would apply. And over every run only
/// logs of servers have records.
pub fn replayed_disks_are_the_worlds()
    ensures same { ReplaysAreAsTheWorlds }
    ensures others { OthersStayEmpty }
{
    replays_are_the_worlds();
    leases_last();
    writes_stand_once();
}

/// So what a stop leaves is kept where the logs stand as the core alone has them, seals come behind the replay, and records name sectors of regions that a replay changes.
pub fn what_logs_leave_is_kept()
    ensures kept { MomentsKeepWhatLogsLeave }
{
    what_is_left_is_kept();
    replayed_disks_are_the_worlds();
}

/// A transcript without deaths tells no recovery; so over every run in which no death was said nothing is removed of the live history.
pub fn nothing_is_removed_without_deaths()
    ensures transcripts { DeathlessHistoriesStay }
    ensures runs { NothingIsRemoved }
{
    what_is_witnessed_tells_the_run();
    read_scripts_are_transcribed();
    runs_have_their_faults();
}

/// At a moment of such a run the disk of its world with each server's cache laid over it stands for the tree of the live history, all bytes exact.
pub fn caches_stand_without_deaths()
    ensures stands { DeathlessCachesStand }
{
    worlds_keep_what_they_began_with();
    what_is_witnessed_tells_the_run();
    read_scripts_are_numbered();
    runs_have_their_faults();
    who_rests_has_nothing();
    caches_laid_over_the_disk_stand();
}

/// Where no server of the world is dead and none has anything dirty, the run's disk stands for the tree of the live history as it is.
pub fn a_quiet_moment_stands()
    ensures stands { QuietDisksStandForTheLive }
{
    worlds_keep_what_they_began_with();
    what_is_witnessed_tells_the_run();
    a_quiet_disk_stands();
}

/// Where the end was said all servers are off, and the run's disk stands for the tree of the live history as it is.
pub fn the_end_leaves_the_tree()
    ensures stands { TheEndLeavesTheTree }
{
    worlds_keep_what_they_began_with();
    what_is_witnessed_tells_the_run();
    read_scripts_are_numbered();
    nothing_follows_the_end();
    the_end_is_told();
    a_disk_at_rest_stands();
}

/// What is asked is met at the first moment of each start, over a fresh disk and over that of an image: nothing has happened, no server is mounted, and all logs are zero.
pub fn first_moments_meet_what_is_asked()
    ensures first { FirstMomentsMeetWhatIsAsked }
{
    each_start_is_an_opening();
    an_opening_begins_histories();
    first_moments_are_worlds();
    events_keep_sight();
    first_moments_are_told();
    logs_stand_good();
    logs_begin_beside();
    seals_come_behind();
}
