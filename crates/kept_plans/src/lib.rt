//! The plan of a server's line under way that is kept beside the server: how what the line has seen stands against what it may use of the cache, what it has seen once its set has grown, and
//! how its plan ends, with the locks that it finds and, of a finished line, the outcome that a commit takes. The definitions say when a kept plan is what the core has the line come to, over
//! what the plan is made over and nothing else, so that it stays while that stays. It stands on servers and on the definition of the core; plans are made elsewhere.
#![tactic(auto)]

mod kept;
mod laws;

pub use kept::{FinishedLine, KeptEnd, KeptPlan, PlannedLine};
pub use laws::{a_kept_plan_stays, an_acknowledged_write_leaves_it, outcomes_are_committed};
