//! What may happen next of one party of a world, where it goes by the plan of its line or by what is kept beside it: a server is asked once it is fresh (`Asking`), each question by the
//! definition's guard, exactly and without memory; so is the host about its writes. `refresh` makes what is kept up to date: the plan where the stage goes by it, the sectors of the
//! oldest records where a line waits for room, and what the slots of a recovery say. It stands on the world, on stages, on plans made to be kept and on who may issue what.
#![tactic(auto)]

mod asking;
mod fetching;
mod gives;
mod host;
mod lines;
mod refreshing;
mod slots;
mod times;
mod writes;

pub use asking::{Asking, stage_at};
pub use host::{host_next_issue, host_write};
pub use refreshing::{refresh, refresh_all};
