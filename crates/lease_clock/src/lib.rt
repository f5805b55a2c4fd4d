//! The clock of a run and the leases of its servers, counted in ticks. The clock is seen as the tick at which it stands, and a
//! lease as its expiry. The contracts promise that a lease ends, that a write is stamped and that a lease is renewed as the
//! definitions of leases say, and that no sum or difference wraps at either end of `u64`. It stands on the definitions of locks
//! and leases.
#![tactic(auto)]

mod clock;
mod lease;

pub use clock::{Clock, ClockEnd};
pub use lease::{Ended, Lease};
