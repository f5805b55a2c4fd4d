//! Which sectors the edits of a plan move from lock to lock: each inode and each block that they take or free, with the lock that covers its sectors
//! afterwards; and the lock that covers a sector which a line needs or sets, found by the inodes at which the line looked, as far as they are cached, and by the
//! bitmaps of held segments. The contracts promise what the definitions say of every sector, by the edits alone, and of the same sectors, bitmaps and nodes. The
//! core of a server moves by the first the covers of what it has cached and in flight, and finds by the second the covers of what a plan needs and sets. It stands
//! on the edits of the plans and on the reading of cached sectors.
#![tactic(auto)]

mod cover;
mod held;
mod moves;
mod owners;
mod said;
mod thing;

pub use cover::{cover_among, large_cover_among, small_cover_among};
pub use moves::{Move, lock_in, moves_of};
pub use owners::owns_small;
pub use said::{has_large, has_small};
pub use thing::Thing;
