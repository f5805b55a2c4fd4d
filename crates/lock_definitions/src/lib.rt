//! What locks and leases mean: which holders may stand beside each other, what each call of a lock table answers and leaves,
//! which tables have the same locks, and when a lease ends. Nearly all of it is `specs/`, which the lock table, the lease's
//! clock, the core of several servers and the rebuilding of a lost table cite. The code is the types that these definitions
//! speak of, and the lists in which a server tells what it knows itself to have. It stands on the base types alone.
#![tactic(auto)]

mod claim;
mod laws;
mod lists;

pub use claim::{AskedFor, Claim, LogHold, LogTaken, Wanted};
pub use laws::{
    cleared_servers_have_nothing, each_asked_lock_is_listed, holders_stay_compatible,
    locks_are_asked_for, same_locks_answer_alike, waits_for_each_holder,
    wants_are_granted_or_noted,
};
pub use lists::{ClerkLocks, LockList, LogList};
