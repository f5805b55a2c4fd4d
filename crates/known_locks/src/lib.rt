//! A lock table together with what each party knows itself to have of it, kept beside the table and updated by the same calls, so
//! that the table could be lost and rebuilt. Each call has the contract of the lock table's own. `clerks` lists what each party
//! knows without reading the table, and `set_locks` puts a rebuilt table in the place of the old one. It stands on the lock table,
//! on ordered maps, in which each server's claims lie with room for the next, and on the definitions of locks.
#![tactic(auto)]

mod changes;
mod clerk;
mod clerks;
mod known;
mod laws;
mod takers;

pub use known::KnownLocks;
pub use laws::{parties_list_what_they_hold, released_wishes_can_be_forgotten};
