//! The commands on images: the tree that an image stands for, what its logs keep, the records of one log, the report of its check. Each says
//! lines and puts nothing.
//! The contracts promise that what was said is a prefix of exactly the lines of the image's disk, at the end with all done the whole of
//! them, and that each other end has its cause. It stands on the words of commands, on the readers of images, logs
//! and disks, on the writer of said lines and on the traits of the outside.
#![tactic(auto)]

mod asked;
mod commands;
mod end;
mod lines;
mod read;
mod say;
mod sentences;

pub use asked::do_command;
pub use commands::{fsck, log, recover, tree};
pub use end::ImageEnd;
pub use lines::sound_replay;
pub use read::read_disk;
pub use sentences::fault_sentence;
