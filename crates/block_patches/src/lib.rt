//! How two blocks differ behind their versions, as the patches of a change, which may be forced over some bytes that are the same. The
//! contract promises the longest runs of bytes that differ or are forced, ascending, and the laws that a change with these patches
//! makes the new block of the old one. The coders of inodes, directories and bitmaps call it. It stands on the definitions of sectors.
#![tactic(auto)]

mod laws;
mod patches;

pub use laws::{
    forced_patches_are_the_longest_runs, forced_patches_make_the_new_block,
    patches_are_the_longest_runs, patches_make_the_new_block,
};
pub use patches::{patches_of, patches_with};
