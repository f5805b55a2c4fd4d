//! The writes in flight as the code keeps them are those of the core: what is asked of them and what is made of them, by the core's words. Each is a law, the
//! contract of a public function with an empty body. They stand on the writes in flight as code, on laws of caches and on the definition of the core.
#![tactic(auto)]

mod laws;

pub use laws::{
    a_busy_sector_is_the_cores, a_landed_write_is_the_cores, a_write_is_the_cores,
    an_issued_write_is_the_cores, lost_writes_are_the_cores, moved_writes_are_the_cores,
    the_mounts_writes_are_the_cores, writes_left_behind_are_the_cores,
    writes_under_a_lock_are_the_cores,
};
