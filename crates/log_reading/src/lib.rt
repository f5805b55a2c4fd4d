//! Reading a log by its 256 sectors: where it ends, whether it is sealed there, which records stand whole in it, and the greatest operation
//! among them. The contracts promise the end, the seal and the records of the definition, for any bytes. It stands on the definitions of logs and on the coder of
//! records.
#![tactic(auto)]

mod end;
mod frames;
mod read;
mod records;

pub use read::{is_sealed, read_log};
pub use records::greatest_operation;
