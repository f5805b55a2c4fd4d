//! Images of disks: a disk as bytes, and bytes as a disk or their first fault. Contracts promise that reading gives exactly what the
//! definition of images says of the bytes, and that writing adds exactly the image of the disk; the laws say that the one undoes the
//! other. It stands on the definitions of disks and on the readers of sectors.
#![tactic(auto)]

mod entry;
mod fault;
mod format;
mod laws;
mod read;
mod refusal;
mod write;

pub use fault::{ImageFault, ImageFlaw};
pub use laws::{
    images_are_what_is_read, images_tell_disks_apart, read_images_are_written_again,
    written_images_read_back,
};
pub use read::read_image;
pub use refusal::ImageRead;
pub use write::write_image;
