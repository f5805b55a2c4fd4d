//! Laws of what a plan takes of the disk: by the tree alone it is known what an operation takes, and its plan lacks segments, or has a block
//! cleared, or says that there is no space, exactly where the held segments haven't got that. Each is a clause of a public function with an empty
//! body. It stands on the laws of plans of names and of files.

ghost use Rattle.plan_laws.specs.Exact.{LacksExactly, ClearsExactly, SaysFullExactly};

/// Over the disk of a tree, whatever is held, the plan of an operation lacks segments exactly where not all are held and an allocation
/// that the tree asks for finds nothing in them. It has a block cleared exactly where a directory must grow, every allocation finds something,
/// and the block that is found was never a directory's and isn't known to be zero. It says that there is no space exactly where all segments
/// are held and an allocation finds nothing.
pub fn plans_take_exactly_what_is_there()
    ensures lacks { LacksExactly }
    ensures clears { ClearsExactly }
    ensures says_full { SaysFullExactly }
{}
