//! The world of several servers with what the host reads of the tree, as the machine that a hall asks: which event may happen next, what an event needs and asks of the outside, and what it
//! makes by what is heard. Each contract is the definition of the core: the world is seen as a value, of which `core_of` is the core; making ready and making up to date leave it, and a step
//! makes of it what the event makes. Beside the events stand a line that passes the gate, a server that is held, one that wants everything written, and what is asked of a server. It stands on
//! the world with what is asked of it, on what the host reads, and on the definition of the core.
#![tactic(auto)]

mod asked;
mod fault;
mod fetching;
mod gate;
mod picks;
mod reading;
mod recovering;
mod steps;
mod world;

pub use fault::StepFault;
pub use world::World;
