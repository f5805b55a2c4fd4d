// Answers that carry nothing.
ghost use Rattle.std.specs.Prelude.{◌≡◌, true, false};
ghost use Rattle.core_definitions.specs.Servers.{answer_at_death};
ghost use Rattle.server_core.specs.Phases.{reply_of};

use crate::kinds::is_crash;
use frang_base::{Op, Reply};

/// An answer that carries nothing: what a server answers without a plan is one of these.
#[derive(Clone, Copy, Debug, PartialEq, Eq)]
pub enum PlainAnswer {
    Ok,
    Mounted,
    Already,
    Down,
    Expired,
    Io,
}

impl PlainAnswer {
    /// The reply that it is.
    pub fn reply(self) -> Reply
        ensures { result ≡ reply_of self }
    {
        match self {
            PlainAnswer::Ok => Reply::Ok,
            PlainAnswer::Mounted => Reply::Mounted,
            PlainAnswer::Already => Reply::Already,
            PlainAnswer::Down => Reply::Down,
            PlainAnswer::Expired => Reply::Expired,
            PlainAnswer::Io => Reply::Io,
        }
    }
}

/// The answer to a line that is under way, and open, where its server dies: `ok` to a crash, `io` where a get or put of the mount failed, else `down`.
pub fn answer_at_death(failed: bool, operation: &Op) -> PlainAnswer
    ensures { reply_of result ≡ answer_at_death failed operation.now }
{
    if is_crash(operation) {
        PlainAnswer::Ok
    } else if failed {
        PlainAnswer::Io
    } else {
        PlainAnswer::Down
    }
}
