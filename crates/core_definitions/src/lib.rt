//! What the core of several servers is made of, and what it does: rings, caches, logs, plans of lines, lines under way, writes in flight, recoveries,
//! servers, places in the script and the reading of the tree, with the rules that its events read off them; its events, when each may happen and what it
//! does to the core, to the disk and to the record, and what it asks of the outside; the list of those that may happen; the runs that they make; and the
//! opening, from which a run begins. It is the machine that the hall of servers runs and of which the headline speaks. It is all `specs/`. It stands on
//! the definitions of locks and of sets of them, of caches, logs, rings, plans and lines, and on the outside's record.
#![tactic(auto)]
