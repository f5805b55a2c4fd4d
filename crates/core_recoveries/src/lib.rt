//! The events of the core on recoveries, beside live servers, each as a short run of the theorem on sectors. Each law is the contract of a public function:
//!
//! - **Begins**: a log is taken.
//! - **Reads**: what a recovery reads of the log, and of the sectors that its records name; and reads that fail.
//! - **Arrivals**: what is written for it comes.
//! - **Failures**: or fails.
//! - **Seals**: the same of its seal.
//! - **Ends**: the log is given back.
//! - **Steps**: all of these, as the step law says it.
//! - **Logs**: what they ask of the logs, by what stands beside a world.
//!
//! It holds no code and stands on the ties of the core to a world, on what holds over every run of the core, and on the theorem on sectors.
#![tactic(auto)]

mod arrivals;
mod begins;
mod ends;
mod failures;
mod logs;
mod reads;
mod seals;
mod steps;

pub use arrivals::{rescues_are_of_worlds, rescues_arrive};
pub use begins::begins_are_events;
pub use ends::finishes_lead_on;
pub use failures::rescues_fail;
pub use logs::{recoveries_go_on_by_logs, seals_go_on_by_logs};
pub use reads::{failed_reads_are_events, loads_are_none, looks_are_events, names_follow};
pub use seals::{logs_stay_free_of_writes, seals_are_of_journals};
pub use steps::recoveries_go_on;
