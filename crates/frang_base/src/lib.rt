//! The bottom layer: the types of scripts, operations, replies, said lines, sectors' changes and locks, which every crate
//! speaks of. Its contracts promise that each list type is the list of what was pushed and that a name is a name. It stands
//! on std alone.
#![tactic(auto)]

mod bitmap;
mod change;
mod fault;
mod items;
pub mod limits;
mod lock;
mod name;
mod names;
mod op;
mod path;
mod reply;
mod said;
mod script;
mod sector;
mod text;

pub use bitmap::{Bitmap, Held};
pub use change::{Change, Changes, Patch, Patches, Redo};
pub use fault::{NoMemory, PathFault};
pub use items::Items;
pub use lock::{LockId, Mode};
pub use name::Name;
pub use names::{NameList, Path};
pub use op::{HostOp, Op, What};
pub use path::{cut, parse_path};
pub use reply::Reply;
pub use said::Said;
pub use script::{Line, Script};
pub use sector::{Block, OpNo, Sector, ServerId};
pub use text::Text;
