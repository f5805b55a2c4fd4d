//! A hall whose run is watched: the lines said are counted by kind, the counts stand on a status board from the moment at which the lock of the turn that said them is let go, and one more worker
//! reads the board beside the others, without the lock. The contracts promise that what it read are the figures of prefixes of the run's record, of which none is shorter than one before it, and
//! that the last are those of the whole record. It stands on the hall and on the board.
#![tactic(auto)]

mod counted;
mod desk;
mod line;
mod top;
mod watch;

pub use counted::Counted;
pub use top::run_machine_watched;
pub use watch::run_watched;
