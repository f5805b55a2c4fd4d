//! The rules of the report of a disk's check, sector by sector, by tables that are made once: what is reached, how often each inode is named,
//! who uses which block. The contracts promise each rule's value as the definition has it. It stands on the definition of reports and on the
//! reader of disks.
#![tactic(auto)]

mod blocks;
mod directories;
mod entries;
mod flags;
pub mod inodes;
mod names;
pub mod parts;
mod reach;
mod repeats;
pub mod segments;
mod tables;
mod users;

pub use flags::Flags;
pub use names::Counts;
pub use tables::{Tables, read_tables};
pub use users::Users;
