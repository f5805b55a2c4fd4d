//! That a recovery keeps, since its server's last mount, the same by the number that it reports as by that up to which the world has operations durable. Each law is the contract of a
//! public function with an empty body:
//!
//! - **Records**: the last record that stands whole in a good log is read.
//! - **Accounts**: journals account for the operations of their servers, at first and at each step.
//! - **Examples**: moments at which what these laws ask is met.
//! - **Keeping**: so what is durable is kept by what the log reads as, at the end of a recovery and at a stop.
//!
//! They stand on what recoveries read of logs, on the journals of a Commit, and on what the lines said tell.
#![tactic(auto)]

mod accounts;
mod examples;
mod keeping;
mod records;

pub use accounts::{
    accounts_begin, accounts_stay, commits_are_accounted_for, mounts_are_accounted_for,
    standing_is_durable,
};
pub use examples::{a_last_record_is_read, a_mount_is_accounted_for, first_moments_are_accounted};
pub use keeping::{
    logs_keep_what_is_durable, recoveries_keep_what_they_report, reports_are_of_journals,
};
pub use records::last_records_are_read;
