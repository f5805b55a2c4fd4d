//! The journals of logs, and the disk, through the steps of lines. Each law is the contract of a public function with an empty body:
//!
//! - **Appends**: the journal of a Commit with a record.
//! - **Disks**: the disk after a Commit, and what is acknowledged.
//!
//! They stand on the events of a line, and on where marks lie after them.
#![tactic(auto)]

mod appends;
mod disks;

pub use appends::commits_append;
pub use disks::commits_keep_the_disk;
