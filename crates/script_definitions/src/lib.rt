//! What scripts and said lines are as texts: the grammar of scripts with the first fault of a bad one, the text that prints a
//! script, and the line that bytes are. The meanings are the definitions in `specs/`; the code is the small readers of words
//! that both grammars share, each of which is promised to give its definition's value. The laws promise that reading and writing
//! undo each other and that what a tree holds and answers can be said. It stands on the base types and the definitions of the tree.
#![tactic(auto)]

mod asked;
mod fault;
mod laws;
mod number;
mod sayable;
mod ticks;
mod word;

pub use asked::Asked;
pub use fault::{LineFault, ScriptFault};
pub use laws::{
    a_text_is_one_script, bytes_are_those_of_their_line, lines_are_read_back,
    no_two_lines_have_the_same_bytes, nothing_may_follow_a_line, printed_scripts_are_read_back,
    what_is_in_the_grammar_is_read, what_is_read_is_in_the_grammar,
};
pub use number::{count, number_within};
pub use sayable::{
    histories_leave_what_can_be_said, scripts_ask_what_can_be_said, tree_lines_can_be_said,
    what_can_be_said_is_proper, what_is_applied_can_be_said,
};
pub use ticks::{scripts_take_few_ticks, ticks_of};
pub use word::ServerWord;
