//! Tables of tests that are written as text: rows with columns, numbers, sectors by short names, bytes at places. What isn't read is refused by the
//! error that want of memory has, so that a test whose table has a slip fails. Its contracts promise nothing of what a text means: tests compare what
//! comes of it with what was worked out. Only tests stand on it.
#![tactic(auto)]

mod bytes;
mod disks;
mod rows;
mod words;

pub use bytes::{are_pieces, block_of, lay};
pub use disks::lay_on;
pub use rows::{columns, has_rows, has_word, is_row, parted, split};
pub use words::{byte, number, number_or, sector};
