//! The covers of writes in place. Each law is the contract of a public function with an empty body.

ghost use Rattle.core_line_steps.specs.Held.{HeldWritesHoldTheirCovers, LinesMoveUnderHeldLocks, StepsKeepWritesHeld};

use core_facts::{blocks_stay_whole, segments_are_needed_sole};
use core_laws::{each_key_stands_once, who_rests_has_nothing};
use line_locks::covers_of_set_bytes_are_found;

/// Where the server of each write in place of its present mount holds its cover alone, each step of the core keeps it: a write is issued of a sector that is dirty, whose cover its server holds alone; nothing is given
/// under which a write flies; locks are cleared where nothing flies; and a commit moves covers under locks that its server holds alone.
pub fn writes_in_place_stay_held()
    ensures steps { StepsKeepWritesHeld }
    ensures covers { HeldWritesHoldTheirCovers }
{
    each_key_stands_once();
    who_rests_has_nothing();
}

/// At a moment of a run, where lines under way are numbered and dirty pages of free sectors are pending, what a line moves as it commits comes under locks that its server holds alone.
pub fn lines_move_under_held_locks()
    ensures moves { LinesMoveUnderHeldLocks }
{
    each_key_stands_once();
    blocks_stay_whole();
    segments_are_needed_sole();
    covers_of_set_bytes_are_found();
}
