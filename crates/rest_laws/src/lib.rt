//! Laws of what servers did, without recoveries at a stop: while no server is dead the disk with each server's cache laid over it stands for the tree of the history as it is, and where
//! nothing is dirty, as where all servers are off, the disk itself does. Each law is the contract of a public function with an empty body. They stand on the laws of stops and on the
//! theorem on sectors.
#![tactic(auto)]

ghost use Rattle.rest_laws.specs.AtRest.{DisksAtRestStand, QuietDisksHaveWhatWasDone, QuietDisksStand, RestIsQuiet, RestIsReplayed};
ghost use Rattle.rest_laws.specs.ClosedServers.{ClosedServersKeepAll, StopsStandByTheLines};
ghost use Rattle.rest_laws.specs.Done.{WhatWasDoneStands};
ghost use Rattle.rest_laws.specs.Histories.{HistoriesLeaveTheirTree};
ghost use Rattle.rest_laws.specs.LaidOver.{CachesAreLaidOver, CachesLaidOverStand};

/// After each legal history of lines that is told as deeds, and after which cells are known: each disk whose sectors with versions are the logical ones, and that has what is known of bytes,
/// stands for the tree after the deeds.
pub fn a_history_leaves_its_tree()
    ensures leaves { HistoriesLeaveTheirTree }
{}

/// At each moment of servers whose operations are lines: each disk that has what was done stands for the tree of their history, with nothing removed but what past recoveries removed.
pub fn what_was_done_stands_for_the_history()
    ensures stands { WhatWasDoneStands }
{}

/// While no server is dead, the disk with all caches laid over it has what was done, so it stands for the tree of the history, all bytes exact.
pub fn caches_laid_over_the_disk_stand()
    ensures done { CachesAreLaidOver }
    ensures stands { CachesLaidOverStand }
{}

/// Where no server is dead and none has anything dirty, the disk has what was done, so it stands for the tree of the history, with nothing removed.
pub fn a_quiet_disk_stands()
    ensures done { QuietDisksHaveWhatWasDone }
    ensures stands { QuietDisksStand }
{}

/// Where all servers are off nothing is dirty, a replay of all logs changes nothing, and the disk stands for the tree of the history, with nothing removed.
pub fn a_disk_at_rest_stands()
    ensures quiet { RestIsQuiet }
    ensures replayed { RestIsReplayed }
    ensures stands { DisksAtRestStand }
{}

/// At a stop the recoveries of all servers that count as mounted, closed ones among them, remove nothing of what a closed one did. So before the first line of the tree the disk with all logs
/// replayed stands for the tree of the history that a stop leaves by the lines said, where these tell as mounted or dead each server that isn't off.
pub fn a_stop_stands_by_the_lines()
    ensures closed { ClosedServersKeepAll }
    ensures stands { StopsStandByTheLines }
{}
