//! A script run by the core: on a fresh disk or on that of an image, over any outside, by as many workers as the script names servers, or by one in an order of events that a number picks. The contract promises
//! that the outside then has what the opening puts, or the first of it, and behind that what a run of the core from there leaves; and that each result comes by its cause; and of a run that is
//! watched, that what was read are figures of prefixes of its record. Beside it
//! stands what the laws of all runs say of that. It stands on the hall, on the world of several servers as its machine, on the opening and on the laws of the core.
#![tactic(auto)]

mod disk;
mod fault;
mod laws;
mod run;
mod script;
mod watched;
mod workers;

pub use disk::StartDisk;
pub use fault::RunFault;
pub use laws::what_is_left_is_lawful;
pub use script::{run_script, run_script_watched};
