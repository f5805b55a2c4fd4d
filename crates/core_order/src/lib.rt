//! What the headline says of recoveries and of the order of writes, over every run of the core. Each law is the contract of a public function:
//!
//! - **Reports**: each recovery says the greatest operation that its log had where it last began.
//! - **Order**: on whose behalf puts are, in whose log, and by whom, which is of the core alone; and, where each moment of the run has a world of the theorem on sectors beside it, that a put of
//!   metadata raises a version which a record in the log names.
//! - **Starting**: what the second asks is met; and no logs but those of servers have records.
//! - **Versions**: records that stand in logs name versions from 1 on.
//!
//! It holds no code and stands on the words of the headline, on what holds of every run of the core, on what stands of its logs, and on the ties of the core to a world.
#![tactic(auto)]

mod order;
mod reports;
mod starting;
mod versions;

pub use order::{puts_are_in_turn, writes_are_in_order};
pub use reports::recoveries_say_the_greatest;
pub use starting::{a_run_has_worlds, first_moments_stand, the_other_logs_stay_empty};
pub use versions::logs_name_versions;
