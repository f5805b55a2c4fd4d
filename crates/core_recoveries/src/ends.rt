//! Recoveries that end. Each law is the contract of a public function.

ghost use Rattle.core_recoveries.specs.Ends.{FinishesLeadOn};

use core_laws::{
    a_recovery_ends_once_it_is_done, one_recovery_is_under_way, who_rests_has_nothing,
};

/// From each moment of a run with a good world a Finish, of which an entry of the history tells, is Fade of each write that is late, Look of each sector that a record to replay names, and
/// Finish: they may happen and lead to a world of the next moment. What is cached, and what is in flight in time, lies under locks that others hold, so its covers stay and so does
/// whether it has a version, though operations of the dead server are removed. That the log is at rest then is a premise here.
pub fn finishes_lead_on()
    ensures finish { FinishesLeadOn }
{
    one_recovery_is_under_way();
    who_rests_has_nothing();
    a_recovery_ends_once_it_is_done();
}
