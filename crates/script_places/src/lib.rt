//! Where each party is in a script: its next line, and which lines are answered and have passed the gate. The contract of each question is the definition of the core, over the marks
//! of lines by their numbers; none walks the script, since the places of the next lines are kept. It stands on the definitions of the core.
#![tactic(auto)]

mod marks;
mod order;
mod places;
mod scan;
mod ticks;

pub use order::{ascends, read_scripts_ascend};
pub use places::Places;
