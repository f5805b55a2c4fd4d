//! The layer of texts that are said: it writes a said line as its bytes, and reads one. Its contracts promise exactly the bytes that
//! the definitions give to each line, with its line feed, and nothing added where memory is short. It offers the pieces of which
//! texts are made, numbers among them. It stands on the base types and the definitions.
#![tactic(auto)]

mod number;
mod parts;
mod reading;
mod reply;
mod said;

pub use number::{write_after_blank, write_count, write_hex, write_number, write_words};
pub use parts::is_target;
pub use reading::read_line;
pub use reply::reply_word;
pub use said::write_line;
