//! A segment of the allocation bitmap as the bytes of its sector, and back; and what it says of each inode and small block. The
//! contracts promise the bytes of the definition, that a block is read exactly where it is the sector of some segment, and that the
//! patches between two segments are the longest runs in which their sectors differ; the laws, that reading and writing undo each other.
//! It stands on the definitions of sectors and on the patches between blocks.
#![tactic(auto)]

mod differences;
mod inodes;
mod laws;
mod reading;
mod state;
mod writing;

pub use differences::patches;
pub use frang_base::Bitmap;
pub use inodes::{inode_in_use, with_inode};
pub use laws::{patches_make_the_new_sector, what_is_written_reads_back};
pub use reading::{decode, fields};
pub use state::{BlockState, state_of, with_state};
pub use writing::encode;
