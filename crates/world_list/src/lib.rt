//! The list of all events of a world that may happen next, each once, exactly as the core's definition lists them and in its order; and the event that a number draws from it. Nothing
//! is changed: what is kept beside the parties and of the tree has to be up to date. How far each server's line has come is read once. It takes memory for the list, and time in its length but for what is asked of each event. It stands on the world, on
//! what is asked of one party, on the host's reading of the tree, and on the definition of the core.
#![tactic(auto)]

mod asked;
mod candidates;
mod clock;
mod ends;
mod fetches;
mod flights;
mod gathering;
mod gives;
mod issues;
mod lines;
mod list;
mod lives;
mod needs;
mod pushing;
mod reads;
mod recoveries;
mod row;
mod rows;
mod stages;
mod wants;

pub use list::{drawn, enabled};
