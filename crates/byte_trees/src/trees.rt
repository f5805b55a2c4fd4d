//! Laws of the bytes of a tree's files beside those that stand somewhere: cells that come into doubt; a tree with a byte for each cell, and what is answered in
//! it; a disk that stands for the shape of a tree and has its bytes; and what edits leave of bytes. The laws are the contracts of public functions with
//! empty bodies. They stand on the rules on histories, on the meaning of disks and trees, and on the laws of shapes.

ghost use Rattle.byte_trees.specs.Cells.{DoubtKeepsOtherBytes, PartsInDoubtHaveNoBytes};
ghost use Rattle.byte_trees.specs.Sharp.{SharpTreesStand, AnswersKeepWhatStands};
ghost use Rattle.byte_trees.specs.Standing.{ADiskStandsWithItsBytes};
ghost use Rattle.byte_trees.specs.Written.{EditedBytesStand, EditedLargeBytesStand};

/// Once runs of cells came into doubt, a cell that is a byte was this byte before, and none of the runs covers it. So a part of a file, which is a sector
/// counted from its first, has no byte left where it is in doubt for a server at the end of a list and the cells that are then in doubt came into doubt.
pub fn a_part_in_doubt_has_no_bytes()
    ensures others { DoubtKeepsOtherBytes }
    ensures parts { PartsInDoubtHaveNoBytes }
{}

/// A tree that has each byte that stands is well formed and of the shape of the tree, and names no other bytes than these. Where an entry is the answer of
/// that tree it is the answer of the tree, and if after it the cells of the first name no others than then stand, neither do those of the tree: also those
/// in doubt that a read made known.
pub fn answers_keep_what_stands()
    ensures sharp { SharpTreesStand }
    ensures answers { AnswersKeepWhatStands }
{}

/// Where the sectors with versions stand for the shape of a tree, a disk that has these sectors, and anything in the others, stands for the tree if each
/// cell that is a byte stands at its place in the blocks of its file; a cell in doubt allows any byte there.
pub fn a_disk_stands_with_its_bytes()
    ensures stands { ADiskStandsWithItsBytes }
{}

/// Where each edit that writes a part of a block writes these bytes, and they stood there if none writes it, the edited store has them: of a small block, and
/// of a large one.
pub fn edited_bytes_stand()
    ensures small { EditedBytesStand }
    ensures large { EditedLargeBytesStand }
{}
