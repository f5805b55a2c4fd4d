//! What an event of a world of several servers needs, made ready: all its memory, what is found out for it, and what it asks of the outside. A contract says that the event may happen by the
//! guards of the core, or that nothing was made since it may not; that what is ready is what the call asks by which the world makes the event; and that the call is the core's. Making ready
//! changes nothing that the core knows. It stands on the world, on what is asked of its parties, on what the host reads, and on which event comes next.
#![tactic(auto)]

mod clock;
mod ends;
mod fetches;
mod kinds;
mod lines;
mod lives;
mod made;
mod recoveries;
mod texts;
mod up_to_date;
mod writes;

pub use kinds::{Made, Ready};
pub use made::ready;
pub use up_to_date::refresh;
