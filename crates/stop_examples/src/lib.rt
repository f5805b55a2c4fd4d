//! A run of two servers over a fresh disk, with real plans, that meets all that the laws of stops ask: both look at the root, the first syncs and dies, the second recovers its log, and all
//! stop. It holds no code, and stands on those laws.
#![tactic(auto)]

mod runs;

pub use runs::a_run_meets_what_is_asked;
