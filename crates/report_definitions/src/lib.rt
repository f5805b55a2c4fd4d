//! What the report of a check of a disk is: how many nodes and blocks are reached from the root, and each fault with its sector and its
//! kind, in order. The definition speaks of what is reached, rule by rule, and of no pass over the disk. Each law is the contract of a
//! public function with an empty body: there are no faults exactly where the disk stands for a tree; they stand in order; and there is one
//! report. It stands on the laws of disks that stand for trees.
#![tactic(auto)]

ghost use Rattle.report_definitions.specs.Laws.{FaultsAscend, NoFaultsWhereItStands, OneReport};

/// The list of faults of a disk is empty exactly where the disk stands for some tree.
pub fn a_disk_without_faults_stands()
    ensures stands { NoFaultsWhereItStands }
{}

/// The faults of a report ascend by their sectors and then by their kinds, so that none is told twice.
pub fn faults_are_told_in_order()
    ensures ascend { FaultsAscend }
{}

/// A disk has one report at most.
pub fn a_disk_has_one_report()
    ensures one { OneReport }
{}
