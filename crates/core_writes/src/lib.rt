//! The events of the core on writes in place and of recoveries, each as a short run of the theorem on sectors: writes that are issued, that come too late or are lost, that
//! arrive in time, or fail. Each law is the contract of a public function with an empty body. It holds no code and stands on the ties of the core to a world, on what holds
//! over every run of the core, and on the theorem on sectors.
#![tactic(auto)]

mod acknowledged;
mod arrivals;
mod failures;
mod gone;
mod issues;

pub use acknowledged::acknowledged_writes_stay_so;
pub use arrivals::arrivals_are_events;
pub use failures::failures_are_events;
pub use gone::late_writes_are_gone;
pub use issues::issues_are_events;
