//! The recovery of a dead server's log: its slots are read, the sectors that its records name are looked at, what the records make of them is written, and the log is sealed. The
//! contracts are the core's definition of a recovery, call by call: all that may be done next, and what each call makes of the recovery. What is asked one by one takes
//! time logarithmic in what is left. It stands on the reading of logs, the replay of a sector, ordered maps, and the definition of the core.
#![tactic(auto)]

mod course;
mod demon;
mod listing;
mod naming;
mod next;
mod replay;
mod seals;
mod stage;

pub use demon::Demon;
pub use next::Next;
