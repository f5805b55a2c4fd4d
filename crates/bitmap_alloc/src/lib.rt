//! What an operation allocates of the bitmap segments that it holds: the least inode, small block or large block that is free and of the
//! right state. The contracts promise exactly the definitions' picks, with nothing exactly where no held segment has one, and no memory
//! but for lists of blocks. It stands on the definitions of picks and on the coder of bitmap sectors.
#![tactic(auto)]

mod mark;
mod pick;

pub use bitmap_block::BlockState;
pub use disk_definitions::Use;
pub use frang_base::{Bitmap, Held};
pub use mark::{mark_block, mark_inode};
pub use pick::{pick_inode, pick_large, pick_many, pick_small};
