//! A line planned for the core of a server, over what the line may use: the sectors that its plan examined, and how it ends, with what the core asks of each end.
//! That is the cover of a sector that it needs; the locks of a line that has a block cleared; of a finished line its record, the file bytes that it sets, each under
//! its cover, what it frees, what goes from lock to lock, and its locks. The contracts promise the words of the core's definition over the same sectors and bitmaps,
//! at the nodes that the examined sectors tell. It stands on the plan of a line, its locks, its moves and what its edits write.
#![tactic(auto)]

mod bytes;
mod finish;
mod finished;
mod plan;

pub use finished::{BytesSet, Finished, PlanEnd, Planned};
pub use plan::plan_for_core;
