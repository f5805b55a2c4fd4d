//! The events of the core on writes of a server's own log, each as a short run of the theorem on sectors: what arrives in time makes the log's durable operations more, and those of
//! a server that lives known; one that fails is a failure of its server; one that is issued, that comes too late or is lost is none. Each law is the contract of a public function:
//!
//! - **Issues**, **Arrivals**, **Failures**, **Gone**: the events.
//! - **Beside**: what they ask of a moment beside its world, and keep.
//!
//! It holds no code and stands on the ties of the core to a world, on what holds over every run of the core, and on the theorem on sectors.
#![tactic(auto)]

mod arrivals;
mod beside;
mod failures;
mod gone;
mod issues;

pub use arrivals::log_writes_reach_the_disk;
pub use beside::{logs_begin_open, marks_lie_where_operations_end, quiet_events_leave_marks};
pub use failures::log_writes_fail;
pub use gone::log_writes_are_gone;
pub use issues::log_writes_are_issued;
