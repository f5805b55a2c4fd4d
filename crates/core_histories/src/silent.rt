//! Steps at which nothing more is told. Each law is the contract of a public function.

ghost use Rattle.core_histories.specs.Silent.{SilentStepsAddNone, SilentStepsAreTold};

use core_transcripts::read_scripts_are_numbered;

/// At a step that is neither an operation, nor an answer of a server, nor the end of a recovery no line is said that is an entry: those of the host, of deaths, of recoveries that
/// begin, of renewals, of notes and of the tree are none. So where it leaves the world's history, what happened is told on.
pub fn silent_steps_are_told()
    ensures none { SilentStepsAddNone }
    ensures told { SilentStepsAreTold }
{
    read_scripts_are_numbered();
}
