//! Laws of trees each node of which is reached from the root: it stays so, whatever is applied. Each law is the contract of a public
//! function with an empty body. The plans rest on them, since a disk stands only for a tree whose nodes are all reached. It stands on the
//! definitions of disks and trees, and on the laws of trees.

ghost use Rattle.standing_laws.specs.Reached.{FreshIsReached, ApplyKeepsReached, StepKeepsReached, StepsKeepReached};

/// Each node of the fresh tree is reached from the root. An operation at a new birth leaves each node of a well-formed tree reached, if each
/// was before, and so does each step of a history with a new number.
pub fn each_node_stays_reached()
    ensures fresh { FreshIsReached }
    ensures apply { ApplyKeepsReached }
    ensures step { StepKeepsReached }
    ensures steps { StepsKeepReached }
{}
