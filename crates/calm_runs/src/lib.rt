//! Runs of the core in which nothing stops a server: no line of the script makes one die or stall, and no get or put fails. Each law is the contract of a public function:
//!
//! - over such a run each server is off or up, and no put comes late;
//! - the scripts of soaks have no such line.
//!
//! It holds no code and stands on the laws of all runs and on the script of a soak.
#![tactic(auto)]

mod laws;

pub use laws::{no_put_comes_late, nobody_stops, soaks_are_calm};
