//! What a turn of the hall is: the events of the core as the program names them, what each asks of the outside, what a turn answers by its cause, and what is kept
//! over all turns: that a run of the core from the outset ends in this world and leaves this outside. It stands on the definitions of the core and on the trait of
//! the outside.
#![tactic(auto)]

mod event;

pub use event::{Call, End, Event, Heard, Turn};
