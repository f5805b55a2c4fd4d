//! What a telling gives. Each law is the contract of a public function.

ghost use Rattle.core_histories.specs.Stops.{StopsStandForWhatWasSaid, ToldHistoriesSettle, ToldStopsStand};

use crate::answers::phases_are_told;
use stop_laws::{
    histories_settle_alike, stops_leave_what_lines_tell, the_disk_stands_for_the_history,
};

/// Where the world's history is of lines, the deeds that are left of what happened are what has settled in the world, and what settles of the history that the lines said tell. And
/// where everything stops at such a moment, the disk with all logs replayed stands for the tree of the history that a stop leaves by the lines said.
pub fn tellings_settle_and_stand()
    ensures settles { ToldHistoriesSettle }
    ensures stands { ToldStopsStand }
{
    histories_settle_alike();
    stops_leave_what_lines_tell();
    the_disk_stands_for_the_history();
}

/// So it is at each moment of a run, where no line of the tree is said yet with the recoveries of servers that were closed, which are up by the lines said, and from the first line of the tree on without any. Premises
/// are that each log keeps what is durable, and that recoveries of closed servers would remove nothing.
pub fn stops_stand_for_what_was_said()
    ensures stands { StopsStandForWhatWasSaid }
{
    phases_are_told();
    stops_leave_what_lines_tell();
    the_disk_stands_for_the_history();
}
