//! What stands of each server's records in its log on the disk along every run of the core, and what a recovery reads and reports of it. Each law is the contract of a public function
//! with an empty body:
//!
//! - **Logs**: what stands of each server's log on the disk, beside a journal of it (**Journals**), how it goes on at each step, what it reads as, and that its numbers stay small.
//! - **Reports**: what a recovery reads and reports is the log as it stood when the recovery began.
//!
//! They stand on the definitions of the core, on its laws and facts, and on the rings of logs.
#![tactic(auto)]

mod logs;
mod reports;

pub use logs::{logs_read_as_their_journals, logs_stand_good, numbers_stay_small};
pub use reports::{recoveries_replay_the_journal, recoveries_report_the_log_as_it_stood};
