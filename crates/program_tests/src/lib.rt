//! The tests of the outsides and of the call that does all that the program does: what no contract says, as that calls succeed while there is
//! memory, what the trusted edge does, and the texts of whole runs.
#![tactic(auto)]

#[cfg(test)]
mod boards;
#[cfg(test)]
mod builders;
#[cfg(test)]
mod errors;
#[cfg(test)]
mod gates;
#[cfg(test)]
mod outsides;
#[cfg(test)]
mod puts;
#[cfg(test)]
mod refusals;
#[cfg(test)]
mod rows;
#[cfg(test)]
mod sentences;
#[cfg(test)]
mod several;
#[cfg(test)]
mod times;
#[cfg(test)]
mod volume;
