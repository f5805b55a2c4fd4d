//! The opening of a run: what the host puts on a fresh disk, or of the disk of an image, before a run begins. The contracts promise that the outside then has exactly the opening's puts in
//! their order, and that a refusal leaves the first of them, tells its cause, and was counted for the host where a put failed. It stands on the coders of sectors, on
//! the definition of the opening and on the trait of the outside.
#![tactic(auto)]

mod fresh;
mod image;
mod puts;

pub use fresh::open_fresh;
pub use image::open_image;
pub use puts::OpenFault;
