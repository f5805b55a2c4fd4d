//! The plan of a server's line under way, made to be kept: planned for the core over what it may use of the cache, with what it has seen once its set has grown, and of a finished line the
//! outcome that a commit takes, in which each sector that moves stands with its new lock. It stands on lines planned for the core, on what they are planned over and on kept plans.
#![tactic(auto)]

mod fits;
mod making;
mod moved;
mod outcome;

pub use making::{LineToPlan, plan_to_keep};
