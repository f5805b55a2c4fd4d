// Laws of picks and of what is taken.
ghost use Rattle.disk_definitions.specs.PickLaws.{PicksAnInode, NoInodeIsLeft, PicksALargeBlock, NoLargeBlockIsLeft, PicksForBytes, NoneIsLeftForBytes, PicksForADirectory, NoneIsLeftForADirectory, SmallBlockIsChanged, InodeIsMarked, LargeBlockIsMarked, SegmentsAreChanged, StatesAreChanged, NextInodeIsAbove, NextLargeBlockIsAbove, NextForBytesIsAbove, NextForADirectoryIsAnother, PicksTheLeast, PicksWhereThereAreEnough, PicksOneAfterAnother};

/// A pick is held, free and of the right state, and the least such; nothing is picked only where no held segment has one. A directory gets
/// a block that never was one only where no held block was.
pub fn a_pick_is_the_least_of_its_kind()
    ensures inode { PicksAnInode }
    ensures no_inode { NoInodeIsLeft }
    ensures large { PicksALargeBlock }
    ensures no_large { NoLargeBlockIsLeft }
    ensures bytes { PicksForBytes }
    ensures no_bytes { NoneIsLeftForBytes }
    ensures directory { PicksForADirectory }
    ensures no_directory { NoneIsLeftForADirectory }
{}

/// What is taken or given back has its new state, and all else stays, also where several blocks are.
pub fn what_is_taken_changes_and_nothing_else()
    ensures small { SmallBlockIsChanged }
    ensures inode { InodeIsMarked }
    ensures large { LargeBlockIsMarked }
    ensures segments { SegmentsAreChanged }
    ensures states { StatesAreChanged }
{}

/// Once a pick is taken, the next one lies above it; for a directory it is another block.
pub fn the_next_pick_is_another()
    ensures inode { NextInodeIsAbove }
    ensures large { NextLargeBlockIsAbove }
    ensures bytes { NextForBytesIsAbove }
    ensures directory { NextForADirectoryIsAnother }
{}

/// Several picks for bytes, one after another, are the least blocks of state 0, each once, ascending; and they are there exactly where so
/// many held blocks have that state.
pub fn many_picks_are_the_least()
    ensures least { PicksTheLeast }
    ensures enough { PicksWhereThereAreEnough }
    ensures one_after_another { PicksOneAfterAnother }
{}
