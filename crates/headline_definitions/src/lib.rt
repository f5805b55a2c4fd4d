//! The headline: what is promised of every run of the servers, at every stop, as definitions over what was witnessed of it: its deeds, and the failed puts that
//! left the new sector. All but what the replayed disk stands for is computed. With it the law over runs as it is stated, the clause of the call that runs a
//! script, and what is kept of a run over its outside. The law is only stated. It stands on the definitions of trees, disks and the core.
#![tactic(auto)]

mod laws;

pub use laws::{
    each_prefix_is_witnessed, the_logs_of_a_disk_are_meant, what_is_witnessed_tells_the_run,
};
