//! The events of lines of the core on the side of sectors, each whole: a Commit, a Clear, an Again that reclaims, and a Fetch. Each law is the contract of a public function with an empty body:
//!
//! - **Commits**: a Commit, with a record and without one.
//! - **First**: what they ask stands at the first moment.
//! - **Lasts**: that where all operations of a server are acknowledged, so is its whole log.
//! - **Steps**: all of these, as the step law says it.
//!
//! They stand on the parts of these events, and on what stands beside a world along runs.
#![tactic(auto)]

mod commits;
mod first;
mod lasts;
mod steps;

pub use commits::{commits_are_events, records_of_lines_fit};
pub use first::first_moments_stand;
pub use lasts::lasts_stay_settled;
pub use steps::{lines_go_on, quiet_steps_keep_beside};
