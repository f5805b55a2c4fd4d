//! Records, frames and sectors of logs as bytes, and back. The contracts promise the bytes of the definitions, that bytes are read as a
//! record exactly where they are the body of one, and a block in a slot exactly where it is a sector of a log that may stand there. It
//! stands on the definitions of sectors and of logs.
#![tactic(auto)]

mod frame;
mod laws;
mod reading;
mod sector;
mod writing;

pub use disk_definitions::LogSector;
pub use frame::{FRAME_BYTES_MAX, FRAME_HEAD, Frame, push_frame, read_frame};
pub use laws::{records_read_back, what_is_written_reads_back};
pub use reading::decode;
pub use sector::{sector_read, sector_write};
pub use writing::{encode, fits, record_length};
