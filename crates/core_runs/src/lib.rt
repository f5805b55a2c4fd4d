//! The step law over runs of the core, as it is to be cited: what stands beside a moment of a run, that it does at the first moment of each start, and that each step keeps it, where that is so
//! of what is open still, which is stated here part by part. Each law is the contract of a public function. It holds no code and stands on the laws of the core's events as events of the theorem
//! on sectors, on what the lines said tell, and on openings.
//!
//! What else is to stand beside a moment, by which a recovery keeps what it reports, is given by its evidence: a type, with the moment, the world and the journals of which each of its values is.
#![tactic(auto)]

mod along;
mod starts;
mod trees;

pub use along::{runs_are_kept, steps_are_kept_by_parts};
pub use starts::{first_moments_are_kept, runs_from_starts_are_kept};
pub use trees::{kept_moments_are_of_lines, trees_stand_as_told};
