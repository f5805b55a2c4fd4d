//! Laws of the core over its runs. Each is the contract of a public function with an empty body:
//!
//! - **Steps**: what the list of the core's enabled events has, and what every step keeps.
//! - **Facts**: what servers have, by their phase, and how rings, writes and recoveries go.
//! - **Leases**: how long they last, and the writes that are issued under them.
//! - **Wishes**: what servers wish of the lock table.
//! - **Waits**: what the answer to a mount and the end of a recovery wait for.
//! - **Calls**: what an event asks of the outside, what is heard of it, and what the record has of both.
//! - **Orders**: what stands in order and once.
//! - **Openings**: the disk behind the opening.
//!
//! They stand on the definitions of the core and on the laws of lock tables.
#![tactic(auto)]

mod calls;
mod facts;
mod leases;
mod openings;
mod orders;
mod steps;
mod waits;
mod wishes;

pub use calls::{each_call_is_answered, the_record_has_each_call};
pub use facts::{
    a_log_write_keeps_the_window, each_claim_stands_once, logs_in_flight_keep_the_window,
    no_write_is_issued_late, nothing_to_do_is_the_end, one_recovery_is_under_way,
    puts_come_in_time, who_is_off_holds_no_lock, who_rests_has_nothing,
};
pub use leases::{leases_last, writes_last};
pub use openings::the_opening_puts_the_disk;
pub use orders::{a_tick_waits_for_the_others, each_key_stands_once, enabled_events_ascend};
pub use steps::{
    enabled_lists_what_may_happen, holders_stay_compatible, nothing_follows_the_end,
    the_clock_only_rises, writes_stand_once,
};
pub use waits::{a_mount_reads_its_whole_log, a_recovery_ends_once_it_is_done};
pub use wishes::a_wish_is_for_the_next_lock;
