//! Cached sectors as plans read them: what a plan has at hand, inodes, sectors of directories, the names in a directory, and the walk of
//! a path. The contracts promise what the reading programs of the plans come to over the same sectors, the first sector that isn't cached
//! included. It stands on the view of the cached sectors that may be used, the coders of sectors and the definitions of plans.
#![tactic(auto)]

mod hand;
mod looked;
mod need;
mod search;
mod sectors;
mod spot;
mod walk;

pub use hand::Hand;
pub use looked::Looked;
pub use need::Need;
pub use search::{Found, first_named, first_vacant, part_at};
pub use sectors::{block_at, directory_at, entry_at, inode_at, name_of, used_inode};
pub use spot::{NumberedInode, Refusal, Spot};
pub use walk::{look_up, step, walk_passing, walk_spot};
