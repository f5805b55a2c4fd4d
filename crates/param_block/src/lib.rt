//! The parameter sector as bytes, and back. The contracts promise that a written sector has the bytes of the definition and that a
//! block is read exactly where it is the sector of parameters; the laws, that each undoes the other. It stands on the definitions of
//! sectors.
#![tactic(auto)]

mod grammar;
mod laws;
mod reading;
mod writing;

pub use disk_definitions::Param;
pub use laws::what_is_written_reads_back;
pub use reading::decode;
pub use writing::encode;
