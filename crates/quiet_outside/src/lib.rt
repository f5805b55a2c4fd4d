//! An outside that keeps the lines said, over any outside, and the reports of a soak, over one disk or over a pair, on such lines. The contracts promise that what is done to it is done to the outside
//! below it but for the lines, that it gives back that outside with exactly those lines, and that the report is its definition, byte for byte.
#![tactic(auto)]

mod numbers;
mod quiet;
mod report;

pub use quiet::Quiet;
pub use report::{pair_line, soak_line};
