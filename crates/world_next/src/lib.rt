//! Which event of a world of several servers happens next, and what the tree at the end does: an event that may happen by the core's definition, where one may, found without a list of all
//! and without memory. Each group of events, of a server or of none, is asked in its order, each question by the definition's guard; one clause of a group says that what it answers may
//! happen, the other that nothing of the group may where it answers none, and all groups together are all events. So a tick comes only where nothing else may. Beside it stands which line
//! of a server the gate keeps. It stands on the world and what is asked of its parties, on what the host reads, on the guards of the core, and on the names of events.
#![tactic(auto)]

mod choosing;
mod clock;
mod ends;
mod flights;
mod gate;
mod lines;
mod lives;
mod recoveries;
mod servers;

pub use choosing::{next, next_beside_flights};
pub use clock::is_one_at_gate;
pub use gate::{at_gate, to_enter};
