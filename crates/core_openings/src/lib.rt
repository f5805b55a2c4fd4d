//! The first moment of a run over the disk of an opening: what the laws of first moments ask of a disk is so of each formatted one.
//!
//! - **Logs**: on the disk of each opening the logs of the servers are zero.
//! - **Runs**: so the first moment of each run of a script that was read has a world over it, room in its logs, and a history of lines.
//! - **A fresh disk**: it is such a disk, and not one of zeros: where a log of number 256 would lie stands the first bitmap.
//!
//! Each law is the contract of a public function with no result. It holds no code.
#![tactic(auto)]

ghost use Rattle.core_openings.specs.Fresh.{BitmapsAreNoLogs, FreshDisksBeginRuns, SmallRunsBegin};
ghost use Rattle.core_openings.specs.Openings.{OpeningsBeginRuns, OpeningsHaveZeroLogs};

use core_commits::runs_of_lines_begin;
use core_lives::room_is_kept;
use core_world::first_moments_are_worlds;
use opening_laws::{an_opening_begins_histories, each_start_is_an_opening};

/// On the disk of each opening the logs of the servers are zero.
pub fn opened_logs_are_zero()
    ensures zero { OpeningsHaveZeroLogs }
{}

/// At the first moment of a run of a script that was read, over the disk of an opening, the laws of first moments hold, as all that they ask is so: by the naming under which the disk stands for
/// the opening's tree there is a good world, each server's log has room, and the history is one of lines.
pub fn openings_begin_runs()
    ensures begin { OpeningsBeginRuns }
{
    opened_logs_are_zero();
    first_moments_are_worlds();
    room_is_kept();
    runs_of_lines_begin();
    an_opening_begins_histories();
}

/// So it is over each fresh disk; of one segment, with no lines, and with two numbers for operations nothing is left to ask. On that disk stands the first bitmap where a log of number 256 would lie, and it
/// isn't zero.
pub fn fresh_disks_begin_runs()
    ensures fresh { FreshDisksBeginRuns }
    ensures small { SmallRunsBegin }
    ensures bitmap { BitmapsAreNoLogs }
{
    opened_logs_are_zero();
    openings_begin_runs();
    each_start_is_an_opening();
}
