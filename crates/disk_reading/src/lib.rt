//! What is read off the sectors of a disk as a whole: the tree that it stands for, the lines of that tree, and, offered again from the crate of
//! replays, the greatest operation of a log and the disk once its logs are replayed. The contract promises that tree, or that there is none.
//! Bitmaps and inodes are decoded once. It stands on the
//! coders of sectors, on the laws of disks that stand for trees, and on the file tree.
#![tactic(auto)]

mod decoded_disk;
mod files;
pub mod grammar;
mod lines;
mod links;
pub mod marks;
mod nodes;
mod owners;
mod reached;
mod read;
pub mod sectors;

pub use decoded_disk::DecodedDisk;
pub use disk_definitions::Disk;
pub use disk_replay::{greatest, replayed};
pub use lines::DiskLines;
pub use read::tree_read;
