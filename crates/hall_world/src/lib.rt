//! The world of several servers as the machine that the hall asks. It stands on the world, the hall and the definition of the core.
#![tactic(auto)]

mod machine;

pub use machine::HallWorld;
