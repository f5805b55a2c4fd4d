//! Small disks, operations and settings for the tests of plans, read from texts, and plans as text, to be compared with what was worked out by
//! hand. What isn't read is refused by the error that want of memory has, so that a test whose table has a slip fails. The contracts promise what
//! plans ask of operations and of held segments, and nothing of the sectors and texts. It stands on the cache and the sets of locks, on the plans of
//! operations, on what edits write and on the tables of tests.
#![tactic(auto)]

mod cached;
mod digits;
mod disks;
mod edits;
mod operations;
mod paths;
mod plans;
mod replies;
mod segments;
mod settings;

pub use cached::CachedDisk;
pub use disks::{put_sectors, sectors_of};
pub use edits::{ended_told, outcome_told};
pub use operations::{bytes_op, look_op, names_op};
pub use paths::path_of;
pub use plans::{add_changes, add_freed, add_writes, plan_told, written_told};
pub use replies::add_reply;
pub use segments::{Segment, Segments, held_of};
pub use settings::{are_all, leave_out, leave_out_but, when_of};
