//! Files of said lines, and of scripts beside them, read whole. The contract of the reader promises the lines that the bytes are, or the number
//! of the first line that is none. It stands on the reader of one said line.
#![tactic(auto)]

mod reading;

pub use reading::{SaidFault, read_saids};
