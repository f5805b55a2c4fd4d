//! The world of several servers as code, as far as it stands: the clock, the servers with their recoveries, the locks, the writes in flight and the places in the script, what may happen
//! of all that needs no plan of a line, and what it does; the plan of a line is kept beside its server, and what the line does goes by it. Contracts see a value that can be stored, and the core of the definitions that it is (`core_at`): each test is a guard of
//! the core, each call what an event makes of it. What may happen next isn't listed yet: it is to be asked test by test, in the order of the core's table and of each event first for the
//! own server of who asks; a tick may come where every test says no but those of arrivals and losses of writes whose server is stalled or dead. What is asked of a recovery's looks and end
//! is asked once it is fresh (`refresh_recovery`), and what is made of it once it is ready (`ready_recovery`). It stands on the parties, the lock table, the writes in flight, the places in the script and the definition of the core.
#![tactic(auto)]

mod answering;
mod arriving;
mod clock;
mod ends;
mod gate;
mod guards;
mod issuing;
mod keeping;
mod lines;
mod lives;
mod locks;
mod recoveries;
mod restart;
mod world;
mod writes;

pub use world::World;
