//! How far logs may still come. Each law is the contract of a public function.

ghost use Rattle.core_lives.specs.Room.{FirstMomentsHaveRoom, RoomIsEnough, StepsKeepRoom};

use core_facts::{slots_read_are_the_disks, stale_writes_are_late};
use core_laws::{a_mount_reads_its_whole_log, one_recovery_is_under_way, who_rests_has_nothing};
use core_transcripts::{each_line_is_answered_once, read_scripts_have_own_numbers};
use ring_definitions::good_logs_stay_good;
use script_definitions::what_is_read_is_in_the_grammar;

/// At the first moment of a run of a script that was read, over zero logs, logs have room: a hundred numbers for each line that isn't answered are within 2^61. Each step that is shown here
/// keeps it so. Only a mount takes some, for a seal behind it, and it answers a line. So a log at rest ends far below where its numbers end.
pub fn room_is_kept()
    ensures first { FirstMomentsHaveRoom }
    ensures kept { StepsKeepRoom }
    ensures enough { RoomIsEnough }
{
    good_logs_stay_good();
    who_rests_has_nothing();
    one_recovery_is_under_way();
    stale_writes_are_late();
    a_mount_reads_its_whole_log();
    slots_read_are_the_disks();
    read_scripts_have_own_numbers();
    each_line_is_answered_once();
    what_is_read_is_in_the_grammar();
}
