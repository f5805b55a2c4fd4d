//! What a server wants written in place and of its log, and which sector in place it may have written next. Contracts say it in the words of the core's definition; what a server
//! doesn't know is a parameter: the lock table, and whether its ring lacks room for the record of its line. Nothing here changes anything, and only lists take memory. It stands on
//! the server, the lock table, the cache and the definition of the core.
#![tactic(auto)]

mod next;
mod pressed;
mod ready;
mod wanted;
mod writes;

pub use next::next_place_write;
pub use wanted::{is_log_wanted, is_place_wanted, is_pressed, log_wanted_to};
pub use writes::{PlaceWrite, place_write, place_writes};
