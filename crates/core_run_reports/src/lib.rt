//! What else stands beside each moment of a run of the core goes on at each step. Each law is the contract of a public function. It holds no code and stands on the step law over runs, on what
//! stands of the logs, on how journals account for operations, and on what recoveries keep.
#![tactic(auto)]

mod reports;
mod starts;
mod steps;

pub use reports::recoveries_keep_their_reports;
pub use starts::what_stands_further_begins;
pub use steps::what_stands_further_goes_on;
