//! What the lines said by a run tell of the history of the theorem on sectors: a list of what happened, told twice, as entries of the file tree and as what was done to sectors, which
//! goes on event by event as the laws on histories ask. Each law is the contract of a public function:
//!
//! - **Tellings**: the list, as a telling of the step law, and that nothing has happened at first.
//! - **Answers**: what holds over every run of the core alone of the lines under way, of answers, of stalls, and of who is mounted.
//! - **Silent**: the steps at which nothing more is told.
//! - **Told**: answers, closes, ends of recoveries and operations, where the world's history has what the laws of these events say.
//! - **Steps**: all of these as one.
//! - **Stops**: what a telling gives: what settles, and where everything stops the tree for which the replayed disk stands.
//! - **Numbers**: the operations that have settled have numbers of answered lines, so that of a line under way is new.
//! - **Examples**: a moment at which what is asked is met, a few lines that are told twice, and an operation with its server's recovery.
//!
//! It holds no code and stands on the ties of the core to a world, on the transcripts of the core's runs, on the events of a line, and on the laws of histories that are told twice.
#![tactic(auto)]

mod answers;
mod examples;
mod numbers;
mod silent;
mod steps;
mod stops;
mod tellings;
mod told;

pub use answers::{answers_are_of_lines, phases_are_told, who_owes_has_stalled};
pub use examples::{a_few_lines_are_told, a_recovery_is_told};
pub use numbers::lines_under_way_are_new;
pub use silent::silent_steps_are_told;
pub use steps::steps_are_told;
pub use stops::{stops_stand_for_what_was_said, tellings_settle_and_stand};
pub use tellings::first_moments_are_told;
pub use told::{answers_and_closes_are_told, commits_are_told, ends_of_recoveries_are_told};
