//! What holds of each run of a script, whatever its schedule. The law is the contract of a public function with no result.
ghost use Rattle.hall_scripts.specs.Lawful.{WhatIsLeftIsLawful};

use core_laws::{holders_stay_compatible, puts_come_in_time};
use core_transcripts::runs_are_within_their_faults;

/// Of each run of a script whose lines have numbers of their own: the lines said are a transcript of the script, but for which lines of the tree they are, within faults that rose no more than
/// the outside's counts; each put came when its answer says; and at each moment no lock is held sole by one server and in any mode by another.
pub fn what_is_left_is_lawful()
    ensures { WhatIsLeftIsLawful }
{
    runs_are_within_their_faults();
    puts_come_in_time();
    holders_stay_compatible();
}
