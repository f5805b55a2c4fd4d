//! The core of several servers as a world of the theorem on sectors: what ties a world to a moment of a run, part by part; the journals of logs that stand beside it; what else
//! stands beside it along runs; the one disk of which all that is cached is; and the step law, that each step of the core is a run of events there. The step law is stated, and
//! proved of the first moment and of five events. It holds no code and stands on the definitions and laws of the core, on its transcripts, and on the theorem on sectors.
#![tactic(auto)]

mod laws;

pub use laws::{
    asks_are_events, deaths_are_events, first_moments_are_worlds, gives_are_events,
    quiet_events_leave_logs, renews_are_events, ticks_are_events,
};
