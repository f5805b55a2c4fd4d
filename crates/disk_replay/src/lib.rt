//! The disk after its logs are replayed, the records that a log holds, its greatest operation, and what records make of one sector. The
//! contracts promise the sectors, the records and the operation of the definition, for any disk. A log none of whose sectors was set is passed over, since it holds no record. It
//! stands on the definitions of logs, on their reading, and on changes that are applied only where the block is older.
#![tactic(auto)]

mod apply;
mod block;
mod records;
mod replay;

pub use block::{is_replayed, replayed_block};
pub use records::{greatest, records_of};
pub use replay::{Replay, replay_in_place, replay_with_greatest, replayed};
