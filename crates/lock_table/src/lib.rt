//! The lock table: which server holds which lock in which mode, whose wishes are noted, and who has taken the log of a dead
//! server until when. The contract of each call is the definition's answer and next state, exactly, and in every table holders
//! are compatible. It stands on the definitions of locks, and nothing in a contract says how the table lies in memory: the claims
//! of all servers in an ordered map by lock, and beside it for each server the locks that a noted wish of another conflicts with.
#![tactic(auto)]

mod asked;
mod asked_lists;
mod claimed;
mod claims;
mod lock_map;
mod logs;
mod looks;
mod modes;
mod table;

pub use lock_definitions::{AskedFor, LogHold, LogTaken, Wanted};
pub use table::LockTable;
