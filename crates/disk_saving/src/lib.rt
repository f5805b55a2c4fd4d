//! The disk of an outside as an image in a file. The contracts promise that the file holds the image of the sectors that the outside
//! has in the regions of the disk, that a get that failed names its sector and was counted for the host, and that no sector and no
//! other file changes. It stands on the layout of the disk, on images, and on the traits of the outside and of files.
#![tactic(auto)]

mod fault;
mod laws;
mod place;
mod save;

pub use fault::SaveFault;
pub use laws::places_are_in_order;
pub use save::save_disk;
