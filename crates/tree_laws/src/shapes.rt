//! Laws of the shape of a tree, the tree without the bytes of files: operations go by it. Each is the contract of a public function with an
//! empty body. They stand on the definitions and laws of trees; what speaks of disks without their bytes rests on them.

ghost use Rattle.tree_laws.specs.Acting.{ApplyGoesByShape, PerformGoesByShape, PlacesGoByShape, WalksGoByShape, ResolvedGoesByShape};
ghost use Rattle.tree_laws.specs.Keeping.{ShapesAreTheirOwn, ShapesAreWellFormed, NodesStay, KindsStay, ToldKindsStay, VisitedStay, RoomStays};

/// The names of a path lead to the same place in the shape of a tree as in the tree, and so do its links.
pub fn paths_go_by_the_shape()
    ensures places { PlacesGoByShape }
    ensures walks { WalksGoByShape }
    ensures resolved { ResolvedGoesByShape }
{}

/// An operation on the shape of a tree is answered as on the tree, but that a read shows its cells in doubt; and it leaves the shape of what it leaves
/// of the tree. So too where links are followed. Nothing is asked of the tree.
pub fn operations_go_by_the_shape()
    ensures apply { ApplyGoesByShape }
    ensures perform { PerformGoesByShape }
{}

/// A shape is its own shape, and that of a well-formed tree is well formed. It has the nodes of the tree, each of its kind, and takes the same of the
/// disk; an operation looks names up in the same directories of it and reaches the same nodes.
pub fn a_shape_has_all_but_the_bytes()
    ensures own { ShapesAreTheirOwn }
    ensures well_formed { ShapesAreWellFormed }
    ensures nodes { NodesStay }
    ensures kinds { KindsStay }
    ensures told { ToldKindsStay }
    ensures visited { VisitedStay }
    ensures room { RoomStays }
{}
