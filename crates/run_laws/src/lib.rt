//! Laws of runs of the core that the hall cites. Each is the contract of a public function with an empty body:
//!
//! - **Records**: each prefix of a run's record is the record of a run.
//! - **Regions**: only sectors in regions of the disk are written. Of logs and recoveries that holds over every run. A write in place is of a sector that a line
//!   made dirty, and a line names what it read off the disk; so for these it holds where each line, when it clears or commits, stays on the disk.
//!
//! They stand on the definitions of the core and on its laws, and go by what each step makes of the servers, the writes in flight, the disk and the record.
#![tactic(auto)]

mod lines;
mod records;
mod regions;

pub use lines::who_sees_a_tree_stays_on_the_disk;
pub use records::each_prefix_is_of_a_run;
pub use regions::{
    a_fresh_disk_keeps_its_regions, a_run_meets_the_premise, only_regions_are_written,
};
