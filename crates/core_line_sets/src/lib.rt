//! The sets of lines at a moment of a run, beside its world. Each law is the contract of a public function with an empty body:
//!
//! - **Sets**: their segments are of the disk.
//!
//! They stand on the events of a line, and on the one disk over which lines are planned.
#![tactic(auto)]

mod sets;

pub use sets::sets_stay_of_the_disk;
