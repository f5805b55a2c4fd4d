//! What the plans in code share: the edits of which an operation is made, what ends a plan before it is done, the node that a path names
//! with its inode, where a path leads, and room for an entry in a directory. The contracts promise the definitions' edits, each after
//! those that were there, and that each plan goes on as it does over what was read. It stands on the reading of cached sectors and the
//! picks of held segments.
#![tactic(auto)]

mod block;
mod edit;
mod entries;
mod nodes;
mod passing;
mod room;
mod segments;
mod stop;
mod target;
mod walking;

pub use block::is_zeroed;
pub use edit::{Edit, Outcome, push};
pub use entries::{enter, entry_for, replace_entry, take_entry};
pub use nodes::{NewNode, fewer, new_node, relink};
pub use passing::walk_passes;
pub use room::{Room, clear_room, find_room, is_full, look_at_held, nothing_left};
pub use segments::{segment_held, segments_needed};
pub use stop::Stop;
pub use target::{Target, inode_of, target_of};
pub use walking::walked;
