//! What a recovery reads of a dead server's log beside its journal, as the theorem on sectors counts it, and what stands of the log where it ends. Each law is the contract of a public
//! function:
//!
//! - **Readings**: what a good log reads as beside its journal.
//! - **Logs**: what a last read slot, and the end of a recovery, rest on; and that a seal comes behind the replay.
//!
//! It holds no code and stands on the ties of the core to a world, on what stands of the core's logs over every run, and on the theorem on sectors.
#![tactic(auto)]

mod logs;
mod readings;

pub use logs::{
    finished_logs_rest, last_loads_are_read, logs_are_open, logs_begin_beside,
    replays_are_the_worlds, resting_is_replayed, seals_come_behind, writes_are_named,
};
pub use readings::{journals_read_as_records, readings_replay};
