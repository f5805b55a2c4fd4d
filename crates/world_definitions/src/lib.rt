//! The core of several servers as a value that can be stored: `World`, whose lists stand for the core's functions, and the core that it is. What a change of
//! such a value is of its core are laws, each the contract of a public function with an empty body; so a step of the core as code is seen to be the step of
//! its definition. It stands on the definition of the core.
#![tactic(auto)]

mod laws;

pub use laws::{
    a_line_is_answered, a_line_passes, a_server_changes, a_server_is_held, each_server_changes,
    the_first_is_first, the_host_changes,
};
