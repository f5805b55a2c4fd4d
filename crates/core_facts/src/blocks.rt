//! The length of blocks, over every run. Each law is the contract of a public function with an empty body.

ghost use Rattle.core_facts.specs.Blocks.{CachedBlocksAreWhole, DisksStayWhole};

/// Over every run from an opening over a disk whose sectors behind the logs have 512 bytes each, over the logs of a disk, they go on having so many, and so has each cached block:
/// changes are runs of bytes within a block, a plan's and those that a replay reads.
pub fn blocks_stay_whole()
    ensures disk { DisksStayWhole }
    ensures cached { CachedBlocksAreWhole }
{}
