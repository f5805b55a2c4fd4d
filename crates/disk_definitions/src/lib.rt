//! What stands on the disk, and what is planned over it:
//!
//! - **Sectors**: the regions with their addresses, and what the bytes of a parameter, inode, directory, bitmap or log sector mean.
//! - **The disk**: its sectors, zero where nothing was written; the inodes, directories, bitmaps and bytes that they say; the naming of a tree's
//!   nodes by inodes, and for which tree a disk stands; images of disks with their first fault.
//! - **Logs**: records as bytes, the end and the records of a log by its 256 sectors, its greatest operation and whether it is sealed, and the disk
//!   after all logs are replayed.
//! - **Picks**: which inodes and blocks an operation picks of the bitmap segments that it holds, and what the segments are once these are taken.
//! - **Changes**: short lists of edits by which a node comes or goes, a directory gets or loses an entry or a block, a node gets other links, a file
//!   gets other cells; of each a law says whose picture the edited store is, and what of the naming stays.
//! - **Plans**: for each operation the reading of sectors that decides its answer and the edits of the disk that make it, as definitions which
//!   compute; which operations may be asked, that the edits fit, that the changes make a record, that the disk with them stands for the next tree.
//! - **Lines**: the plan of an operation whose paths may lead through symbolic links. Each path is resolved over sectors, in the order of the
//!   operation's refusals, to a path without links, and then the operation over these paths is planned.
//!
//! Nearly all of it is `specs/`, which coders, readers, plans and the core cite. The code is the types that these definitions speak of and the disk as
//! a map of sectors. Laws are contracts of public functions with empty bodies. It stands on the meanings of trees and of blocks.
//!
//! A plan "makes" what it will have "made": `plan_made` is a whole plan, `making` what is left of it once its path is walked, `made_by` its finished
//! line.
#![tactic(auto)]

mod changes;
mod directory;
mod disk;
mod inode;
mod log_sector;
mod param;
mod picks;
mod region;
mod want;

pub use changes::{
    a_directory_gets_an_entry, a_directory_grows, a_directory_loses_an_entry,
    a_file_gets_other_cells, a_node_comes, a_node_gets_other_links, a_node_goes,
    a_picture_goes_by_what_counts, an_entry_is_replaced, edits_go_from_the_left,
    entries_change_at_one_name,
};
pub use directory::{DirEntry, DirSector};
pub use disk::Disk;
pub use inode::Inode;
pub use log_sector::LogSector;
pub use param::{FORMAT_NEWEST, Param};
pub use picks::{
    a_pick_is_the_least_of_its_kind, many_picks_are_the_least, the_next_pick_is_another,
    what_is_taken_changes_and_nothing_else,
};
pub use region::Region;
pub use want::Use;
