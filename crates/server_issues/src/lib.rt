//! Which write a server or the host may issue next, and what a server's doom settles. Contracts say it in the words of the core's definition, over each core of which the server, its
//! recovery, the locks, the writes in flight and the clock are. Nothing here changes anything or takes memory. It stands on the server and what it wants written, on the recovery of a
//! log, the writes in flight, the lock table, and the definition of the core.
#![tactic(auto)]

mod busy;
mod doom;
mod host;
mod issuer;
mod laws;
mod next;
mod reclaim;
mod rescue;
mod writes;

pub use host::{host_next_issue, host_write};
pub use issuer::Issuer;
pub use laws::the_log_counts_first;
pub use writes::WantedWrite;
