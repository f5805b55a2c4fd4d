//! Lines under way, answers and stalls, over every run of the core alone. Each law is the contract of a public function.

ghost use Rattle.core_histories.specs.Answers.{AnswersAreDue, LinesUnderWayAreOfTheScript, WhoOwesHasStalled};
ghost use Rattle.core_histories.specs.Phases.{TreesAreSaidAtRest, WhoIsMountedIsTold, WhoIsOffIsTold};

use core_laws::who_rests_has_nothing;
use core_transcripts::read_scripts_are_numbered;

/// Over every run the line under way at a server is the script's line of its number, and asks what a server is asked. An answer that is due leaves the tree: one that was fixed refuses
/// the line, or is `ok` to a crash, or to an unmount of a server that owes; another one is that of a mount, or `ok`. So it is `mounted` only where it begins a mount, and that of a
/// sync is `ok` only where all is synced.
pub fn answers_are_of_lines()
    ensures lines { LinesUnderWayAreOfTheScript }
    ensures due { AnswersAreDue }
{
    who_rests_has_nothing();
    read_scripts_are_numbered();
}

/// Over every run, of a server that owes a stall was answered `ok` since its last mount, by the lines said: who is stalled has stalled, a debt is left by the death of who is stalled,
/// and who owes isn't mounted before he has answered an unmount.
pub fn who_owes_has_stalled()
    ensures stalled { WhoOwesHasStalled }
{
    who_rests_has_nothing();
    read_scripts_are_numbered();
}

/// Over every run who isn't off is up, stalled or dead by the lines said, and who is off isn't as long as a line isn't answered; behind that who is closed is up by the lines said.
/// From the first line of the tree on each server is off.
pub fn phases_are_told()
    ensures mounted { WhoIsMountedIsTold }
    ensures off { WhoIsOffIsTold }
    ensures rest { TreesAreSaidAtRest }
{
    who_rests_has_nothing();
    read_scripts_are_numbered();
}
