//! The report of the check of a disk, and the report as a line of JSON. It stands on the check, which is offered on here, and on the definition
//! of reports.
#![tactic(auto)]

mod line;

pub use disk_check::{Fault, Report, check, check_sectors};
pub use line::report_line;
