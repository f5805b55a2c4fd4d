//! What a server's log is in memory, and what its 256 slots on the disk may be at any moment: the ring of records that are not given up, what
//! each call on it answers and leaves, and every run of such calls in which issued sectors arrive in any order or never; and laws of the logs on the disk:
//! each has one end, sealing leaves it, a replay made twice is one. It stands on the meanings of logs.
//!
//! Who keeps a ring cites of it: the answer of an append and what it needs, its room, the next sector with its bytes, the oldest versions, what a
//! reclaim leaves, and the law a step at a time, `good_logs_stay_good`. It doesn't cite how many sectors a record needs by itself, since that depends on
//! the open sector; nor that a record's last number is a sum, or that these numbers rise, since several records may end in one sector; nor that room for
//! a record lasts over an issue, since issuing the open sector takes it away.
#![tactic(auto)]

mod laws;
mod logs;
mod ring;

pub use laws::{arrivals_raise_the_end, good_logs_stay_good, rings_read_back};
pub use logs::{a_log_has_one_end, a_replay_made_twice_is_one, sealing_leaves_the_log};
pub use ring::{Named, RingFault, Unwritten};
