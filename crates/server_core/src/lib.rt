//! A server of the core as code: what it is (`Phase`, `Arming`), its line under way (`Under`), the answers that it gives, and the server with its lease, its log and its cache
//! (`Server`), to which a line's end comes as an `Outcome`. Contracts see them as those of the core's definition, and each call as what its event makes of them, or as a test that a
//! guard asks. Nothing here takes memory but what says so: the room for an event is made before. It stands on the cache, the ring, sets of locks, what was seen, the slots of a log,
//! what writes in flight are of, and the definition of the core.
#![tactic(auto)]

mod answers;
mod clearing;
mod commit;
mod commit_room;
mod committing;
mod due;
mod effects;
mod kinds;
mod lives;
mod looks;
mod outcome;
mod pending;
mod phase;
mod room;
mod server;
mod under;

pub use answers::{PlainAnswer, answer_at_death};
pub use kinds::{is_crash, is_mount, is_path_op, is_sync, is_unmount};
pub use outcome::{BytesSet, Outcome};
pub use phase::{Arming, Fate, Phase};
pub use server::Server;
pub use under::Under;
