//! The check of a disk: its report. The contract promises exactly the report of the definition, for every disk with a parameter sector. Segments
//! are checked in threads of their own; with one processor the report is the same. It stands on the definition of reports, on the reader of disks
//! and on the replay of logs.
#![tactic(auto)]

mod checking;
mod counts;
mod faults;
mod report;

pub use checking::{check, check_sectors};
pub use report::{Fault, Report};
