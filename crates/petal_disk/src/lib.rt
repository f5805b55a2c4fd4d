//! The writes in flight between the servers and the disk. Contracts see them as a list, ascending by the tickets that were given
//! for them, and promise that no two are of one sector, that an arrival calls the outside once and hands its answer on, that
//! a write arrives in time or not at all, and that a write for which room was made is issued. With each write lies what it is of,
//! and whether it is of the present mount of its server. They lie in order of their tickets,
//! with the tickets in order of the sectors beside them. It stands on ordered maps and on the trait of the outside, on no
//! implementation of it.
#![tactic(auto)]

mod by_ticket;
mod counts;
mod flight;
mod flying;
mod ticket;

pub use flight::Flight;
pub use flying::{Flying, Purpose};
pub use ticket::{Arrived, IssueFault, Ticket};
