//! Laws of what a run begins from:
//!
//! - **Openings**: each start of the core is an opening of the headline, on a fresh disk and on that of an image; and servers over the disk of an opening have what a history
//!   of lines asks of its first disk.
//! - **The next run**: what a stop leaves, saved and read again, is a start.
//!
//! Each law is the contract of a public function with no result. They stand on the laws of disks, of histories and of stops, and on the openings of the core and of the
//! headline.
#![tactic(auto)]

ghost use Rattle.opening_laws.specs.Again.{NextRunsBegin, RunsGoOn};
ghost use Rattle.opening_laws.specs.FirstDisks.{OpeningsAreFirstDisks};
ghost use Rattle.opening_laws.specs.Regions.{RegionsStand};
ghost use Rattle.opening_laws.specs.Starts.{FreshStartsAreBytes, FreshStartsAreOpenings, ImageStartsAreBytes, StartsAreOpenings};

use core_laws::the_opening_puts_the_disk;

/// A disk with the segments, inodes and blocks of one that stands for a tree stands for it too, with parameters of as many segments and of that run or a later one.
pub fn a_disk_stands_by_its_regions()
    ensures stands { RegionsStand }
{}

/// Servers over the disk of an opening, none of which is mounted, have what a history of lines asks of its first disk: it stands for the opening's tree, with versions left for so
/// many operations; covers, kinds, free and written sectors are as it says; its cells are known; and its parameters count as a sector with a version.
pub fn an_opening_begins_histories()
    ensures first { OpeningsAreFirstDisks }
{}

/// Each start of the core is an opening of the headline: that of a fresh disk, and where its sectors are of bytes that of an image too. The sectors of a fresh disk are, and so are
/// those of an image's disk where its blocks are.
pub fn each_start_is_an_opening()
    ensures fresh { FreshStartsAreOpenings }
    ensures bytes { FreshStartsAreBytes }
    ensures image_bytes { ImageStartsAreBytes }
    ensures starts { StartsAreOpenings }
{
    the_opening_puts_the_disk();
}

/// Where what a run left stands for a tree once its logs are replayed, and is saved and read again, the next run of any script begins from it: with the tree that was left but for the
/// births of its nodes.
pub fn runs_go_on_from_what_was_left()
    ensures goes_on { RunsGoOn }
    ensures next { NextRunsBegin }
{
    the_opening_puts_the_disk();
}
