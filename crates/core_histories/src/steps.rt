//! What happened is told on at each step. The law is the contract of a public function.

ghost use Rattle.core_histories.specs.Steps.{StepsAreTold};

use crate::silent::silent_steps_are_told;
use crate::told::{answers_and_closes_are_told, commits_are_told, ends_of_recoveries_are_told};

/// From a moment of a run whose world has a history of lines each step is told on, where the history goes on as the laws of its event say: by the operation of the line that is
/// finished, by a mount or by what is synced, by the end of a recovery, or not at all. Premises are those of operations and of ends of recoveries.
pub fn steps_are_told()
    ensures steps { StepsAreTold }
{
    silent_steps_are_told();
    answers_and_closes_are_told();
    ends_of_recoveries_are_told();
    commits_are_told();
}
