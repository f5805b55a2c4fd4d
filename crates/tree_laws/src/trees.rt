//! Laws of the file tree and of histories: what their definitions must mean, in the subject's own words. Each is the contract of a
//! public function with an empty body. They hold for all trees, entries and histories; the layers above rest on them, and cite the lemmas
//! of `proofs/` that say the same over plain variables.

ghost use Rattle.tree_laws.specs.Histories.{EntrySettles, RecoverySettles, EntryActs, EntryIsLegal, EntryKeeps, RecoveryKeeps, StepsFollow, LegalByParts};
ghost use Rattle.tree_laws.specs.Prefixes.{PrefixesAreTranscripts, EachMayBeSaid, GoesOnByALine, LineAdds};
ghost use Rattle.tree_laws.specs.Kinds.{ToldKindsAgree, ApplyKeepsKinds, StepsKeepKinds, KindsCanBeTold};
ghost use Rattle.tree_laws.specs.WellFormed.{FindsWhatWasPut, MissesWhatWasTaken, ApplyKeepsOrder, StepsKeepOrder, FreshIsWellFormed, ApplyKeepsWellFormed, PerformKeepsWellFormed, StepKeepsWellFormed, StepsKeepWellFormed, LaterNumbersStayNew, NodesComeByNumbers, WellFormedIsWalkable};
ghost use Rattle.tree_laws.specs.Settling.{SettledIsOfHistory, SettlesToItself, RecoveryRemovesASuffix, LostIsOfTheServer};
ghost use Rattle.tree_laws.specs.Doubts.{DoubtHasALastWrite, ALastWriteLeavesDoubt};
ghost use Rattle.tree_laws.specs.Counts.{MakesOneNode, FreesAtMostOneNode, KeepsTheNodes, BlocksNeverFall, LooksChangeNothing, LooksLeaveTheShape, NoPathTouchesNothing};
ghost use Rattle.tree_laws.specs.Removing.{UnseenCanGo, RecoveryLeavesLegal};
ghost use Rattle.tree_laws.specs.Whole.{SettledNumbersAreNew, HistoriesStayWellFormed, RecoveryIsLegal, LegalIsOfWhatIsLeft};
ghost use Rattle.tree_laws.specs.Touching.{GoesByWhatItTouches, GoesAlikeInSameRoom, UntouchedStays};
ghost use Rattle.tree_laws.specs.Refusals.{RefusalsLeaveTheTree, LooksLeaveTheTree, PerformedRefusalsLeaveTheTree, PerformedLooksLeaveTheTree};
ghost use Rattle.tree_laws.specs.Following.{WalksFindWhatIsThere, WalksGoByTheirTrail};

/// An answer other than `ok` leaves the tree, and a look leaves it whatever it is answered; so too where links are followed.
pub fn a_refusal_leaves_the_tree()
    ensures refusals { RefusalsLeaveTheTree }
    ensures looks { LooksLeaveTheTree }
    ensures performed { PerformedRefusalsLeaveTheTree }
    ensures performed_looks { PerformedLooksLeaveTheTree }
{}

/// A walk through links finds what is there, and an operation comes to the same in every tree that agrees on the directories and links
/// that its walks went through, where nodes of one birth are of one kind.
pub fn links_lead_to_what_is_there()
    ensures found { WalksFindWhatIsThere }
    ensures trail { WalksGoByTheirTrail }
{}

/// Births that ascend go on ascending, so that no two nodes have the same, and a node is found where it was put and nowhere else.
pub fn births_stay_distinct()
    ensures put { FindsWhatWasPut }
    ensures taken { MissesWhatWasTaken }
    ensures apply { ApplyKeepsOrder }
    ensures steps { StepsKeepOrder }
{}

/// In every tree that grows from the fresh one by entries of new numbers births ascend, and so do the names of each directory; the root is
/// a directory, and each node has as many names as links. A well-formed tree can be walked: its entries name nodes.
pub fn trees_stay_well_formed()
    ensures fresh { FreshIsWellFormed }
    ensures apply { ApplyKeepsWellFormed }
    ensures perform { PerformKeepsWellFormed }
    ensures step { StepKeepsWellFormed }
    ensures steps { StepsKeepWellFormed }
    ensures numbers { LaterNumbersStayNew }
    ensures nodes { NodesComeByNumbers }
    ensures walkable { WellFormedIsWalkable }
{}

/// A birth tells the kind of its node: the kind that the entry with this number makes, in every tree of a history and of what a recovery
/// leaves of it.
pub fn a_birth_tells_the_kind()
    ensures agree { ToldKindsAgree }
    ensures apply { ApplyKeepsKinds }
    ensures steps { StepsKeepKinds }
    ensures told { KindsCanBeTold }
{}

/// An entry that is answered in one tree is answered alike in another, touches and changes the same nodes there and makes the same of
/// them, where both can be walked, nodes of one birth are of one kind, its number is no node's, the trees agree on what it touches in the
/// first, and neither answer is for want of room or both trees take the same of the disk. What it doesn't touch stays.
pub fn apply_goes_by_what_it_touches()
    ensures alike { GoesByWhatItTouches }
    ensures same_room { GoesAlikeInSameRoom }
    ensures untouched { UntouchedStays }
{}

/// What makes a node and is answered `ok` makes one, what may free a node frees at most one, and nothing else changes their number. A
/// directory never has fewer blocks than before while it lives.
pub fn nodes_come_and_go_one_at_a_time()
    ensures made { MakesOneNode }
    ensures freed { FreesAtMostOneNode }
    ensures kept { KeepsTheNodes }
    ensures blocks { BlocksNeverFall }
{}

/// A look changes no node and leaves the shape, also where a read turns doubtful cells into bytes. An operation without a path touches
/// nothing.
pub fn a_look_changes_nothing()
    ensures changes { LooksChangeNothing }
    ensures shape { LooksLeaveTheShape }
    ensures pathless { NoPathTouchesNothing }
{}

/// Settling, the tree, legality and what must be kept go along a history from the left, one item at a time.
pub fn histories_go_from_the_left()
    ensures entry { EntrySettles }
    ensures recovery { RecoverySettles }
    ensures tree { EntryActs }
    ensures legal { EntryIsLegal }
    ensures keeps { EntryKeeps }
    ensures recovery_keeps { RecoveryKeeps }
    ensures steps { StepsFollow }
    ensures parts { LegalByParts }
{}

/// What settles of a history are entries of it, in their order: without recoveries all of them. A recovery removes nothing, or the first
/// lost entry after its server's last mount with all later ones of that server, and no others.
pub fn what_is_settled_is_of_the_history()
    ensures entries { SettledIsOfHistory }
    ensures whole { SettlesToItself }
    ensures removed { RecoveryRemovesASuffix }
    ensures lost { LostIsOfTheServer }
{}

/// A sector of a file is in doubt exactly where the last write into it is the server's since its last mount, with no later sync of that server
/// and no later touch of the file by another.
pub fn doubt_is_left_by_a_last_write()
    ensures has { DoubtHasALastWrite }
    ensures leaves { ALastWriteLeavesDoubt }
{}

/// What begins a transcript is one, and each line adds to the live history what it says.
pub fn transcripts_are_closed_under_prefixes()
    ensures prefix { PrefixesAreTranscripts }
    ensures each { EachMayBeSaid }
    ensures longer { GoesOnByALine }
    ensures adds { LineAdds }
{}

/// What nobody saw can go: a legal list without the entries of a server, none of which another server has seen, is legal with the same
/// replies, and so a recovery that removes nothing known leaves a legal list legal. No entry that stays may find want of room now, that
/// found none before.
pub fn what_nobody_saw_can_go()
    ensures unseen { UnseenCanGo }
    ensures recovery { RecoveryLeavesLegal }
{}

/// Of whole histories, with their recoveries: the tree of one with new numbers is well formed, and a legal one stays legal by a recovery
/// more that keeps what must be kept and leaves room. Where no cell came into doubt, legal are the entries that are left, by themselves.
pub fn recoveries_leave_a_history_legal()
    ensures numbers { SettledNumbersAreNew }
    ensures trees { HistoriesStayWellFormed }
    ensures recovery { RecoveryIsLegal }
    ensures left { LegalIsOfWhatIsLeft }
{}
