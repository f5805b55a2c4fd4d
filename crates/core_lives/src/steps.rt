//! All steps of the core that are shown here, as the step law says it.

ghost use Rattle.core_lives.specs.Steps.{StepsGoOn};

use crate::lives::{leaves_lead_on, lives_lead_on, mounts_lead_on};
use crate::room::room_is_kept;

/// From a good world of a moment of a run, of sixteen servers, each step beside the events, each event on locks and lives, each answer and close, and each event that is none leads on: by
/// events that may happen, to a world of the next moment, whose history has the entries that tell of them. Premises beside these are that cleared blocks are free and that logs have room;
/// both stay so.
pub fn steps_go_on()
    ensures steps { StepsGoOn }
{
    lives_lead_on();
    leaves_lead_on();
    mounts_lead_on();
    room_is_kept();
}
