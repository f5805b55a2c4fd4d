//! Which numbers the operations of a world's history have. Each law is the contract of a public function.

ghost use Rattle.core_histories.specs.Numbers.{LinesUnderWayAreNew, OperationsAreOfAnswers};

use core_laws::who_rests_has_nothing;
use core_transcripts::read_scripts_are_numbered;

/// At a moment of a run of whose world's history is told, each operation that has settled has the number of a line that is answered: it happened with the line's entry, which the lines said tell. So the number of
/// a line under way, which isn't answered, is new to the history.
pub fn lines_under_way_are_new()
    ensures answers { OperationsAreOfAnswers }
    ensures new { LinesUnderWayAreNew }
{
    who_rests_has_nothing();
    read_scripts_are_numbered();
}
