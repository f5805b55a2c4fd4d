//! The edits of plans fit the disk, and what they write is what they say. Each law is the contract of a public function with an empty body:
//!
//! - **Records**: what edits write makes a disk in its grammar that says what the edited store does, and a record of the log.
//! - **Fit**: what plans write of inodes, entries and bytes may stand on the disk, the blocks and bits that they change are its own, and the changes are few
//!   enough for a record.
//!
//! They stand on the laws of plans and of disks.
#![tactic(auto)]

mod fit;
mod records;

pub use fit::{
    disks_are_fit, plans_make_small_records, plans_of_files_fit_the_disk,
    plans_of_names_fit_the_disk,
};
pub use records::{changes_make_a_record, edits_are_written, records_are_written};
