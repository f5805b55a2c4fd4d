//! Laws of disks that stand for trees: a disk is sound by what its own sectors say exactly where it stands for a tree, the tree is then
//! the one that is read off it, and there is no other but for the births of its nodes; and each node of a tree stays reached from the root, whatever is
//! applied. Each law is the contract of a public function with an empty body. The reader of disks, the checker of images and the laws of lines rest on them,
//! and cite the lemmas of `proofs/` that say the same over plain variables. It stands on the definitions of disks and trees.
#![tactic(auto)]

mod reach;
mod standing;

pub use reach::each_node_stays_reached;
pub use standing::{
    a_disk_stands_for_one_tree, a_disk_that_stands_is_sound, a_sound_disk_has_room,
    a_sound_disk_stands_for_what_is_read,
};
