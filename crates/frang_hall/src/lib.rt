//! The hall: a core together with its outside behind one lock, its turns, and the workers that make them. What its type keeps is that a run of the core from the
//! outset ends in this world and leaves this outside, so each law over all runs is a law of what a hall hands back. It stands on any machine that is the core
//! (`Machine`), and on any outside.
#![tactic(auto)]

mod hall;
mod machine;
mod name;
mod room;
mod top;

pub use hall::Hall;
pub use machine::Machine;
pub use name::Naming;
pub use room::{Finish, Locked, Turning, run_order, run_threads, what_came};
pub use top::{run_drawn, run_machine};
