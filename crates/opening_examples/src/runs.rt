//! A run that says a whole transcript, and its beginning. Each law is the contract of a public function.

ghost use Rattle.opening_examples.specs.Examples.{EmptyScriptsMayBegin, EmptyScriptsSayWhole};

use core_transcripts::runs_have_their_faults;
use core_tree_reads::{an_empty_script_reads_the_tree, runs_say_whole_transcripts};
use opening_laws::each_start_is_an_opening;

/// A run of an empty script over a fresh disk reads the tree for which the disk stands, which is the tree of what the lines said tell, and says a whole transcript.
pub fn an_empty_script_says_a_whole_transcript()
    ensures whole { EmptyScriptsSayWhole }
{
    an_empty_script_reads_the_tree();
    runs_have_their_faults();
    runs_say_whole_transcripts();
    each_start_is_an_opening();
}

/// An empty script over a fresh disk, with no numbers, meets what the law over runs asks of a start.
pub fn an_empty_script_may_begin()
    ensures may { EmptyScriptsMayBegin }
{
    each_start_is_an_opening();
}
