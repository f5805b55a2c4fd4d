//! That the laws of the host's reading have what they ask: a run of an empty script over a fresh disk. It is the contract of a public function.

ghost use Rattle.core_tree_reads.specs.Examples.{EmptyScriptsReadTheTree};

/// A run of an empty script over a fresh disk of one segment reads the root, says its line and the end.
pub fn an_empty_script_reads_the_tree()
    ensures reads { EmptyScriptsReadTheTree }
{}
