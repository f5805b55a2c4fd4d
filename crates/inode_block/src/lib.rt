//! Inodes as the bytes of their sectors, and back. The contracts promise that a written sector has the bytes of the definition, that a
//! block is read exactly where it is the sector of an inode, and that the patches between two inodes are the longest runs in which
//! their sectors differ; the laws, that each undoes the other. It stands on the definitions of sectors and on the patches between
//! blocks.
#![tactic(auto)]

mod differences;
mod grammar;
mod laws;
mod reading;
mod writing;

pub use differences::patches;
pub use disk_definitions::Inode;
pub use laws::{inodes_are_in_range, patches_make_the_new_sector, what_is_written_reads_back};
pub use reading::decode;
pub use writing::encode;
