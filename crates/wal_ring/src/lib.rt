//! The ring of a server's log in memory. Records are appended, one behind the other in packed sectors, which are issued in order and acknowledged in
//! any order, and the reclaimable ones, which are the oldest as far as they are issued, given up once what they name is known to stand on the disk. The
//! contracts are the definitions of rings word for word, and promise which calls take no memory. `read_ring` reads a log back. It stands on these
//! definitions and on the coder and the reading of logs.
#![tactic(auto)]

mod names;
mod packing;
mod ring;

pub use log_reading::read_log as read_ring;
pub use ring::Ring;
pub use ring_definitions::{RingFault, Unwritten};
