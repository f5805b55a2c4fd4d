//! The events of a line of the core in the theorem on sectors. Each law is the contract of a public function with an empty body:
//!
//! - **Zeros**: what is cached of free sectors.
//! - **Standing**: the one disk of which all is that is cached, and the tree for which it stands.
//! - **Sights**: what a line is planned over.
//! - **Stages, Outcomes**: what the stage of a line says of its plan, and that a finished line is an outcome over the logical sectors.
//! - **Commits**: when the operation of a Commit may be done, and what it leaves cached and in flight.
//! - **Agains, Clears, Fetches**: what these are; **Needs**: the sectors that lines need.
//! - **Moments**: all of this at a moment of a run.
//!
//! They stand on the ties of a world to a moment of a run, on the histories of lines, and on the theorem on sectors.
#![tactic(auto)]

mod agains;
mod clears;
mod commits;
mod fetches;
mod moments;
mod needs;
mod outcomes;
mod sights;
mod stages;
mod standing;
mod zeros;

pub use agains::{agains_of_sets_are_none, agains_reclaim};
pub use clears::{cleared_blocks_are_fresh, clears_are_events};
pub use commits::{claimed_sectors_are_fetched, commits_are_operations, outcomes_may_be_done};
pub use fetches::{fetches_are_events, other_fetches_are_fail_or_none};
pub use moments::{
    commits_of_lines_may_be_done, fetches_and_clears_of_lines_are_events, runs_of_lines_begin,
};
pub use needs::needed_sectors_come_in;
pub use outcomes::{finished_lines_are_outcomes, finished_lines_may_be_done};
pub use sights::sights_are_of_one_disk;
pub use stages::stages_tell_their_plans;
pub use standing::{all_is_of_one_disk, the_one_disk_stands};
pub use zeros::free_sectors_stay_zeros;
