//! The zeros of cleared blocks. Each law is the contract of a public function with an empty body.

ghost use Rattle.core_line_steps.specs.Pending.{ClaimedAreClean, ClearsKeepCleared, CommitsKeepCleared};

use core_facts::{blocks_stay_whole, segments_are_needed_sole};
use core_laws::each_key_stands_once;
use line_locks::covers_of_set_bytes_are_found;

/// At a moment of a run, where each dirty page of a free sector is pending, what a line that may commit claims is cached clean.
pub fn what_is_claimed_is_clean()
    ensures clean { ClaimedAreClean }
{
    each_key_stands_once();
    blocks_stay_whole();
    segments_are_needed_sole();
    covers_of_set_bytes_are_found();
}

/// A Commit and a Clear keep that each dirty page of a free sector is pending, and that what is dirty beside file bytes and has no version is free.
pub fn lines_keep_what_is_cleared()
    ensures commit { CommitsKeepCleared }
    ensures clear { ClearsKeepCleared }
{
    each_key_stands_once();
    blocks_stay_whole();
    segments_are_needed_sole();
    covers_of_set_bytes_are_found();
}
