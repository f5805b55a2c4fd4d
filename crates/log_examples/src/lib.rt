//! The worst cases of logs as worked runs, each computed, and rules of reading and sealing that would be wrong, each by a run. It holds no code, and stands on the laws of rings and
//! their logs.
#![tactic(auto)]

mod rows;

pub use rows::{
    five_deaths_leave_nothing, seals_come_by_sectors, torn_records_are_not_read, wrong_rules_miss,
};
