//! The slots of one log as they are read, by a mount of its server or by its recovery: which are read and which aren't, and where the log ends that they say. Each
//! call is an equation with the core's words on logs. It stands on the reading of logs and the definition of the core.
#![tactic(auto)]

mod slots;

pub use slots::Slots;
