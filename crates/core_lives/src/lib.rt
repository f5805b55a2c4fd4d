//! The events of the core on locks and lives, each as a short run of the theorem on sectors, and the steps that are none there. Each law is the contract of a public function:
//!
//! - **Idle**: the steps that are none on the side of sectors.
//! - **Lives**: locks that are asked and given, leases, ticks, stalls that are over, deaths, mounts and their ends, syncs.
//! - **Room**: how far logs may still come.
//! - **Steps**: all of these, as the step law says it.
//! - **Examples**: a moment at which what is asked is met.
//!
//! It holds no code and stands on the ties of the core to a world, on what holds over every run of the core, and on the theorem on sectors.
#![tactic(auto)]

mod examples;
mod idle;
mod lives;
mod room;
mod steps;

pub use examples::a_root_is_read;
pub use idle::{idle_events_keep_worlds, steps_beside_the_events_keep_worlds};
pub use lives::{leaves_lead_on, lives_lead_on, mounts_lead_on, syncs_lead_on};
pub use room::room_is_kept;
pub use steps::steps_go_on;
