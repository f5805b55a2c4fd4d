//! Laws that pin what histories mean where the definitions are recursions along a list: when an entry is seen and when it is synced, and
//! what the entries that are left do once others are removed. Each is the contract of a public function with an empty body. They stand on
//! the laws of trees and histories.

ghost use Rattle.tree_laws.specs.Leaving.{WhatIsLeftDoesTheSame, WhatARecoveryLeavesDoesTheSame};
ghost use Rattle.tree_laws.specs.Recording.{UnrecordedChangesNothing, UnrecordedLeavesTheShape, NothingIsRemoved};
ghost use Rattle.tree_laws.specs.Seeing.{SeenHasAWitness, AWitnessHasSeen};
ghost use Rattle.tree_laws.specs.Syncing.{SyncedWasMadeSure, WhatMakesSureSyncs, CarriedIsAStall, AStallIsCarried};

/// An entry is seen exactly where a later entry of another server touches a node that it changed, or where it makes or frees a node, or
/// changes a node's number of blocks, and a later entry of another server is answered for want of room.
pub fn an_entry_is_seen_by_another_server()
    ensures has { SeenHasAWitness }
    ensures sees { AWitnessHasSeen }
{}

/// An entry is synced exactly where, before the next mount of its server, a sync of the server is answered `ok`, or an unmount of it is
/// and no stall of it was since its last mount. What is carried along a list says whether there was such a stall.
pub fn a_sync_or_an_unmount_makes_sure()
    ensures has { SyncedWasMadeSure }
    ensures syncs { WhatMakesSureSyncs }
    ensures carried { CarriedIsAStall }
    ensures carries { AStallIsCarried }
{}

/// What is left of a legal list without the entries of a server, none of which another server has seen, does what it did: each entry has its
/// reply, touches the same nodes and changes those that it changed, and at each place a node that no removed entry changed is the same but for
/// doubt: where a removed read found bytes that were in doubt, they are in doubt. So too what a recovery leaves that removes nothing known.
pub fn what_is_left_does_what_it_did()
    ensures unseen { WhatIsLeftDoesTheSame }
    ensures recovery { WhatARecoveryLeavesDoesTheSame }
{}

/// An entry without a record changes no node, and leaves the shape; at most it reads bytes that were in doubt. A recovery removes nothing
/// where its server's log kept the record of each entry since the last mount that has one.
pub fn what_has_no_record_changes_nothing()
    ensures changes { UnrecordedChangesNothing }
    ensures shape { UnrecordedLeavesTheShape }
    ensures kept { NothingIsRemoved }
{}
