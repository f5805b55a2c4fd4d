//! An outside over any outside that counts what is done to it, and shows the counts in one line on a terminal, which is rewritten at most ten times a second. The
//! contracts promise that all that is done to it is done to the outside below it, and that it gives that one back; of the line none speaks.
#![tactic(auto)]

mod counts;
mod screen;
mod shown;

pub use counts::Counts;
pub use screen::Place;
pub use shown::Shown;
