//! Laws of whole histories of lines with the bytes of files: what recoveries leave of a history that is told twice, as entries of the file tree and as what operations
//! did to sectors; along it which cells are known, and so that replies are the tree's answers; and what the disk holds once all servers stop and all logs are
//! replayed. Each is the contract of a public function with an empty body. They stand on the histories of lines and of bytes, and on the theorem on sectors; what is
//! asked of the core is named.

ghost use Rattle.stop_laws.specs.Settling.{ShapesFollow, RecordsAreLosses, HistoriesSettleAlike, StopsSettleAlike};
ghost use Rattle.stop_laws.specs.SettledStop.{StopsLeaveTheTree};
ghost use Rattle.stop_laws.specs.Cells.{CellsAreKnown, DoubtCoversMarks, RepliesAreAnswers};
ghost use Rattle.stop_laws.specs.KnownStop.{AStopLeavesTheToldTree};
ghost use Rattle.stop_laws.specs.Locks.{LinesHaveAloneWhatTheyChange, LinesTakeRoomAlone, LinesUseTheirLocks};
ghost use Rattle.stop_laws.specs.Legal.{ToldHistoriesAreLegal};
ghost use Rattle.stop_laws.specs.Pairs.{NothingLostIsTouched};
ghost use Rattle.stop_laws.specs.Replies.{RepliesGoByWhatIsLookedAt, RepliesStay, RepliesStayAtStops};
ghost use Rattle.stop_laws.specs.Coverage.{RemovalsKeepCoverage, HistoriesKeepCoverage};
ghost use Rattle.stop_laws.specs.Events.{StartsAreInSight, EventsKeepSight};
ghost use Rattle.stop_laws.specs.Sight.{RemovalsKeepSight, HistoriesKeepSight, HistoriesKeepReads};
ghost use Rattle.stop_laws.specs.AskedStop.{StopsAreAsked};
ghost use Rattle.stop_laws.specs.Sure.{HistoriesMakeSure};
ghost use Rattle.stop_laws.specs.Synced.{RemovalsKeepSyncs, HistoriesKeepSyncs};
ghost use Rattle.stop_laws.specs.FreshDisks.{FreshDisksFollow, FreshCellsAreKnown};
ghost use Rattle.stop_laws.specs.ClosedStop.{ClosedServersStand, StopsStandForWhatLinesTell};
ghost use Rattle.stop_laws.specs.LinesStop.{StopsLeaveWhatLinesTell};
ghost use Rattle.stop_laws.specs.Closed.{DoubtStands, RecoveriesOfNothingStand};
ghost use Rattle.stop_laws.specs.Stop.{TheDiskStandsForTheHistory};
ghost use Rattle.stop_laws.specs.Fresh.{AFreshDiskStandsForTheHistory};

/// Along each legal history of lines with new numbers, each of which has an entry of its server, number, time and words, with its reply but for bytes: the file
/// tree has the shape that the operations gave it; and an operation has a record exactly where its entry changes the shape, or is a write, fill or truncate
/// answered `ok`, so where a removal may lose it.
pub fn lines_tell_the_same()
    ensures shapes { ShapesFollow }
    ensures records { RecordsAreLosses }
{}

/// Whatever was recovered, by the greatest number of the log's records on the side of the tree and by the number up to which operations are durable on that of
/// sectors: both sides are left with the same deeds in the same order, and what each recovery left in doubt. So it is at each moment of servers, with the
/// recoveries of all logs in their order. The theorem on sectors gives that what has settled is legal and that no mount is lost; of the core it is asked that
/// no operation with a record lies between the two numbers, and that the first above the second has one.
pub fn histories_settle_alike()
    ensures histories { HistoriesSettleAlike }
    ensures stops { StopsSettleAlike }
{}

/// At each moment of servers, where cells are known after the deeds that recoveries of all logs would leave: the disk with all logs replayed stands for the tree
/// of the history with these recoveries, by the rules on histories, a cell in doubt allowing any byte.
pub fn stops_leave_the_tree_of_the_history()
    ensures tree { StopsLeaveTheTree }
{}

/// Along each history that is told twice, whose reads agree with what was known before them, whose entries say what the operations showed, and in which each
/// recovery puts into doubt the cells of the sectors that it marks: where each disk with what is known of bytes at first has the bytes of the first tree's
/// files, each disk with what is known after the history has those of the tree after it; a cell in doubt allows any byte.
pub fn cells_are_known()
    ensures known { CellsAreKnown }
{}

/// So after such a history the reply of an operation, with the bytes that it showed, is the tree's answer: a cell in doubt may be shown as any byte.
pub fn replies_are_answers()
    ensures answers { RepliesAreAnswers }
{}

/// What the end of a recovery leaves in doubt on both sides fits together: the runs of cells cover each cell of each part that lies in a marked sector.
pub fn doubt_covers_what_is_marked()
    ensures covers { DoubtCoversMarks }
{}

/// So at each moment of servers whose operations are lines, where what recoveries of all logs would leave is told twice: the disk with all logs replayed
/// stands for the tree after the entries.
pub fn a_stop_leaves_the_told_tree()
    ensures stands { AStopLeavesTheToldTree }
{}

/// Along each legal history of lines with new numbers an operation uses the lock of each node that is there and that its entry touches: that it changes, looks
/// a name up in, follows as a link, or reaches last; and it has alone that of each such node that its entry changes. Nothing is asked of the core.
pub fn operations_use_their_locks()
    ensures uses { LinesUseTheirLocks }
    ensures alone { LinesHaveAloneWhatTheyChange }
    ensures room { LinesTakeRoomAlone }
{}

/// Where each entry says what its line's plan says over the sectors as its history had left them, each sector of bytes read as the operation showed it: so says
/// each entry that recoveries leave, over the sectors as those before it leave them, and at each moment of servers each that recoveries of all logs would
/// leave. The plan goes by the sectors that it looks at, and none that is removed has changed one.
pub fn replies_stay_after_removals()
    ensures looked { RepliesGoByWhatIsLookedAt }
    ensures settled { RepliesStay }
    ensures stopped { RepliesStayAtStops }
{}

/// Where each operation looked at the bytes of every sector that a lock that it used covered when it happened: each that recoveries leave looked at the bytes
/// of every sector that such a lock covers after the older ones that are left. A removal may put a sector back under its former lock, but what moves a sector
/// has that lock alone, and nothing that another server's operation met is removed.
pub fn operations_see_their_locks()
    ensures removal { RemovalsKeepSight }
    ensures histories { HistoriesKeepSight }
{}

/// Where the cells that each recovery put into doubt covered the sectors that it marked, they cover them once later recoveries removed further operations: a
/// part of a file that lies in a sector that is still in doubt lay there before, and its file has the size that it had.
pub fn doubt_stays_covered()
    ensures removal { RemovalsKeepCoverage }
    ensures histories { HistoriesKeepCoverage }
{}

/// Where the entry of each sync, and of each unmount that no stall went before, came once all operations of its server were synced: no entry of a sync or of a
/// mount that is left comes after an operation of its server above the number up to which the last one covered them. Of a server that was mounted and not
/// recovered since, no such entry, of an unmount neither where no stall is left since its last mount, comes after an operation above a number by which its log
/// may be recovered.
pub fn entries_say_what_is_synced()
    ensures removal { RemovalsKeepSyncs }
    ensures histories { HistoriesKeepSyncs }
    ensures sure { HistoriesMakeSure }
{}

/// Where each operation showed the bytes that were known when it happened: each that recoveries leave shows those that are known after the older ones that are
/// left.
pub fn operations_show_what_is_known()
    ensures reads { HistoriesKeepReads }
{}

/// Along each run of servers over the sectors of one disk each operation sees what is under its locks and shows what is known, no recovery removes what an earlier one of the same log
/// kept, syncs rise, and each server whose log is or may be recovered was mounted and not recovered since: at the start, and through each event.
pub fn events_keep_sight()
    ensures start { StartsAreInSight }
    ensures step { EventsKeepSight }
{}

/// At each moment of servers, what is asked of their history holds of it with the recoveries of all logs.
pub fn stops_are_asked()
    ensures asked { StopsAreAsked }
{}

/// A disk that stands for the fresh tree meets what is asked of the first disk of a history: its root's inode is under its own lock and each other sector
/// under that of a segment; segments, inodes and blocks of directories have versions; no sector of bytes is a file's. Its cells are known: it has none.
pub fn a_fresh_disk_begins()
    ensures follows { FreshDisksFollow }
    ensures known { FreshCellsAreKnown }
{}

/// At each moment of servers whose operations are lines, over a first disk whose cells are known: the disk with all logs replayed stands for the tree of the
/// history with the recoveries of all logs, bytes of files included; a cell in doubt allows any byte. So it is over a disk of
/// the fresh tree, of which nothing more is asked.
pub fn the_disk_stands_for_the_history()
    ensures stands { TheDiskStandsForTheHistory }
    ensures fresh { AFreshDiskStandsForTheHistory }
{}

/// A recovery that removes nothing leaves cells in doubt and nothing else: a disk that stood for the tree of the history stands for that of the history with it. So it
/// is of the recoveries of servers that were closed, among those of others: these go by what they would remove without them.
pub fn recoveries_of_nothing_leave_what_stands()
    ensures doubt { DoubtStands }
    ensures stands { RecoveriesOfNothingStand }
    ensures closed { ClosedServersStand }
{}

/// An operation of another server that comes after one that a recovery removes touches no node that is there and that this one changed.
pub fn nothing_lost_is_touched()
    ensures none { NothingLostIsTouched }
{}

/// A history that is told twice is legal by the rules on histories, where each number of directories' blocks that it tells may be told.
pub fn told_histories_are_legal()
    ensures legal { ToldHistoriesAreLegal }
{}

/// Where the lines said tell of each server whether it is off as the world of the theorem on sectors does: the history that a stop leaves by the lines said is the
/// one with the recoveries of all logs; and from the first line of the tree on, where all servers are off, the one without any. Where some servers were closed,
/// which are up by the lines said: a disk that stands for the tree of the one stands for that of the other.
pub fn stops_leave_what_lines_tell()
    ensures lines { StopsLeaveWhatLinesTell }
    ensures closed { StopsStandForWhatLinesTell }
{}
