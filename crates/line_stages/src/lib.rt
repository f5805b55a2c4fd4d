//! How far a server's line over paths has come, read off the lock table, the server and the plan of the line that is kept beside it, without memory; what the stage asks of it: a lock, a sector
//! with its cover, to go on again, to clear a block, to commit, or to wait for room in its log; and what the line goes on with again, made ready and carried out. The contracts are the core's
//! definition. It stands on kept plans, the lock table, servers and what a line is planned over.
#![tactic(auto)]

mod again;
mod asking;
mod fetching;
mod going;
mod oldest;
mod room;
mod stage;

pub use again::{Again, go_again, ready_again};
pub use asking::{asked_next, cleared_next};
pub use fetching::{cover_needed, first_needed, needs};
pub use going::{may_commit, must_again};
pub use oldest::oldest_sectors;
pub use room::{lacks_room, room_wanted};
pub use stage::{Stage, stage_of, wants_plan};
