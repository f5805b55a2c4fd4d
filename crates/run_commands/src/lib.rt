//! The commands that run scripts: `run`, a script of a file on a fresh disk or on that of an image, with a save of the disk behind it; and `soak`, a script by draws, of which one line is said.
//! The contracts promise that what is left in the outside is what the opening puts, or the first of it, and behind that what a run of the core over that script leaves; that each end comes by
//! its cause; and that the saved file is the image of the outside's disk. It stands on the runs of scripts, on the readers of scripts and images, and on the save of disks.
#![tactic(auto)]

mod end;
mod figures;
mod images;
mod running;
mod scripts;
mod soaking;

pub use end::RunEnd;
pub use running::run;
pub use soaking::soak;
