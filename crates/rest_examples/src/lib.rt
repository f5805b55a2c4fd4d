//! Servers that meet what the laws of rest ask: two over a fresh disk before anything happened, and the two of a run of looks, a sync, a death and a recovery. It holds no code, and stands
//! on those laws.
#![tactic(auto)]

mod servers;

pub use servers::{a_fresh_world_is_at_rest, a_run_meets_what_rest_asks};
