//! Tests of the line that shows how far a run has come, by tables: its text, when it is written, over a clock and a terminal of their own, and that the outside below it
//! has its record. It promises nothing by itself.
#![tactic(auto)]

#[cfg(test)]
mod passing;
#[cfg(test)]
mod terminal;
#[cfg(test)]
mod texts;
