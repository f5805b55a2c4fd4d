//! A lock table rebuilt from what its clerks know, where the table is lost. `rebuild` makes of the lists of all servers a table that has
//! the locks, the waiting wishes and the logs of the lists, or names the least clash of two lists. `Guarded` keeps such a table while the
//! lists of silent servers are missing, and grants nothing that one of them may hold. The laws say what that comes to: of all lists that
//! a table has the rebuilt one is the same, and no new grant conflicts with a lost holder that wasn't cleared. It stands on the lock table
//! and on the definitions of locks and of what each party knows of them.
#![tactic(auto)]

mod clashes;
mod guarded;
mod laws;
mod lists;
mod rebuilding;
mod restart;

pub use guarded::Guarded;
pub use laws::{rebuilt_tables_are_the_same, silent_holders_are_waited_for};
pub use restart::{RebuildFault, rebuild};
