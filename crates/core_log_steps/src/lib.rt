//! What stands of the logs beside a world, from step to step of a run, with the journals that the laws of steps name. Each law is the contract of a public function:
//!
//! - **Journals**: which journals stand beside the next moment.
//! - **Steps**: that each log stands at each moment as its journal has it, and that logs have room.
//! - **Seals**: that a seal comes behind the replay.
//! - **Worlds**: both of these, beside the worlds of a run.
//! - **Examples**: a run at which what is asked is met.
//!
//! It holds no code and stands on what stands of the core's logs over every run, on the ties of the core to a world, and on the theorem on sectors.
#![tactic(auto)]

mod examples;
mod journals;
mod seals;
mod steps;
mod worlds;

pub use examples::an_empty_run_stands;
pub use journals::steps_name_these_journals;
pub use seals::{replayed_logs_stay_replayed, seals_go_on};
pub use steps::{logs_go_on, logs_have_room, logs_stand_along_runs};
pub use worlds::logs_stand_beside_worlds;
