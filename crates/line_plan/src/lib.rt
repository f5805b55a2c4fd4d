//! A whole line as a program over what a server has at hand: its paths are resolved, links followed, and the operation that comes of it is planned. The
//! contracts promise what the definitions' lines come to over the same sectors, the first sector that isn't cached included, and at which sectors they look.
//! The core of a server plans its lines by it. It stands on the walks through links and on the plans of operations.
#![tactic(auto)]

mod ending;
mod plan;
mod walks;

pub use ending::LineEnd;
pub use plan::plan_line;
pub use walks::{Line, Resolved, Step, resolve_line};
