//! What the step law over runs waits for, shown for what else stands beside a moment of a run (`StandsFurther`). Each law is the contract of a public function with an empty body:
//!
//! - **Logs**: that the logs go on at each step.
//! - **Dirt**: that what is dirty goes on at each step that isn't of lines, and that last operations stay settled.
//! - **Lines**: that the events of lines lead on, with what the history tells of them, and that all stands beside behind them.
//!
//! It holds no code and stands on what stands of the logs, on the events of lines as events of the theorem on sectors, and on the step law over runs.
#![tactic(auto)]

mod dirt;
mod lines;
mod logs;

pub use dirt::{dirt_goes_on, dirt_goes_on_by_lasts, lasts_go_on};
pub use lines::lines_lead_on;
pub use logs::logs_go_on_beside;
