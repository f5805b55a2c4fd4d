//! The sixteen servers with the recoveries that they carry out, the recovery of the host, and which servers are held: what is asked of one of them or of all, and what becomes of one
//! of them or of all. Contracts see each party as the core's server of its number (`servers_at`), and each call as what it makes of that function. It stands on one server, the
//! recovery of a log and the definition of the core.
#![tactic(auto)]

mod all;
mod asked;
mod lives;
mod parties;
mod party;
mod recoveries;
mod writes;

pub use parties::{Parties, is_server};
pub use party::Party;
