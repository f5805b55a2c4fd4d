//! What holds over every run of the core by itself, for whoever ties a moment of a run to a world of sectors. Each law is the contract of a public function with an empty body:
//!
//! - **Stamps**: the writes in flight, and the leases under which they were issued.
//! - **Holds**: who has taken whose log.
//! - **Rescues**: the writes in flight on behalf of dead servers.
//! - **Log reads**: what is read of logs.
//! - **Lock sets**: the sets of lines under way.
//! - **Marks**: the marks of dirty sectors.
//! - **Blocks**: the length of blocks.
//!
//! They stand on the definitions of the core and on its laws, and go by what each step makes of the clock, the servers, the locks, the writes in flight and the disk.
#![tactic(auto)]

mod blocks;
mod holds;
mod lock_sets;
mod log_reads;
mod marks;
mod rescues;
mod stamps;

pub use blocks::blocks_stay_whole;
pub use holds::who_holds_a_log_recovers_it;
pub use lock_sets::segments_are_needed_sole;
pub use log_reads::slots_read_are_the_disks;
pub use marks::marks_are_of_the_log;
pub use rescues::rescues_are_of_who_holds_the_log;
pub use stamps::stale_writes_are_late;
