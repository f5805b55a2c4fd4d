//! From the edits of a plan to what is written: the changes of a record, the bytes of files, and the sectors that are freed; and the
//! plan as its caller has it. The contracts promise what the definitions say of the same edits over the sectors at hand. It stands on
//! the coders of sectors and on the edits of the plans.
#![tactic(auto)]

mod at_hand;
mod bytes;
mod changes;
mod dated;
mod edited;
mod ended;
mod fields;
mod freed;
mod versions;

pub use bytes::byte_writes;
pub use changes::changes_of;
pub use ended::finish;
pub use freed::freed_sectors;
pub use versions::have_next_versions;
