//! The numbers of operations. Each law is the contract of a public function with an empty body.

ghost use Rattle.core_line_steps.specs.Numbers.{FirstAreNumbered, NumbersStay, OperationsAreNumbered, UnderWayIsNumbered};

use core_transcripts::{each_line_is_answered_once, read_scripts_have_own_numbers};
use script_places::read_scripts_ascend;

/// Each operation has the number of a line that is answered, and a server's last one is below the numbers of its lines that aren't: so it is where nothing is done; an operation of the line under way of a server
/// keeps it, as that is answered with it; and so does whatever does nothing and raises no last number.
pub fn numbers_stay_new()
    ensures first { FirstAreNumbered }
    ensures operation { OperationsAreNumbered }
    ensures stay { NumbersStay }
{
    each_line_is_answered_once();
    read_scripts_have_own_numbers();
    read_scripts_ascend();
}

/// Then the line under way of a server has a number that is new to the history and above those of its server. It is asked of the script that its lines may be asked, and that their numbers are new to the first tree.
pub fn lines_under_way_are_numbered()
    ensures numbered { UnderWayIsNumbered }
{
    each_line_is_answered_once();
    read_scripts_have_own_numbers();
    read_scripts_ascend();
}
