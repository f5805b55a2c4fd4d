//! First facts of the core over its runs. Each is the contract of a public function with an empty body. They stand on the definitions of the core and on its laws.

ghost use Rattle.core_laws.specs.Facts.{ClaimsStandOnce, WritesAreIssuedInTime, LogWritesKeepTheWindow, PutsComeInTime, NothingToDoIsTheEnd};
ghost use Rattle.core_laws.specs.Facts.{OffHasNothing, OffHasNoFlights, OffHoldsNoLock, OffWishesNoLock, OffHasTakenNoLog, RecoveriesAreOfTheDead};
ghost use Rattle.core_laws.specs.Facts.{OneRecoveryAtMost, RingsKeepTheirWindows, LogFlightsStayInTheWindow, LogFlightsAreAtTheirSlots};
ghost use Rattle.core_laws.specs.Facts.{LogSlotsStandOnce};

/// Over every run from an opening the locks that a server has or wishes ascend, so that each stands once.
pub fn each_claim_stands_once()
    ensures once { ClaimsStandOnce }
{}

/// A write is issued no later than its stamp.
pub fn no_write_is_issued_late()
    ensures early { WritesAreIssuedInTime }
{}

/// A write of a log is issued only where its number is no further past the one up to which all are acknowledged than the log's limit of numbers in flight, over a disk 64.
pub fn a_log_write_keeps_the_window()
    ensures window { LogWritesKeepTheWindow }
{}

/// Over every run the record has a put as written only where it came no later than its stamp, and as late only where it came after.
pub fn puts_come_in_time()
    ensures timely { PutsComeInTime }
{}

/// Where nothing may happen it is over, a line waits at the gate, or the clock is at its last moment.
pub fn nothing_to_do_is_the_end()
    ensures end { NothingToDoIsTheEnd }
{}

/// Over every run from an opening a server that is Off, or Dead, has nothing in memory: no cached sector, nothing that is wanted or pending, no recovery and
/// no arming; and no write of its present mount is in flight.
pub fn who_rests_has_nothing()
    ensures nothing { OffHasNothing }
    ensures landed { OffHasNoFlights }
{}

/// Over every run from an opening a server that is Off holds no lock, sole or shared, wishes none, and has taken no log. One that is Dead keeps its locks until
/// its log is recovered.
pub fn who_is_off_holds_no_lock()
    ensures held { OffHoldsNoLock }
    ensures wished { OffWishesNoLock }
    ensures taken { OffHasTakenNoLog }
{}

/// Over every run from an opening a recovery that is under way by a server that is Up, or by the host, is of a server that is Dead, and there is one at most.
pub fn one_recovery_is_under_way()
    ensures dead { RecoveriesAreOfTheDead }
    ensures one { OneRecoveryAtMost }
{}

/// Over every run from an opening each server's ring has no more numbers issued past the one up to which all are acknowledged than may be in flight, and no
/// more that aren't given up than there is room for: over a disk at most 64 and at most 192. Each number of the log of its present mount that is in flight is
/// past the acknowledged ones, by no more than that; each write of a log in flight, of an earlier mount too, is of its number's slot; and no two in flight of
/// one server's log are of the same slot.
pub fn logs_in_flight_keep_the_window()
    ensures rings { RingsKeepTheirWindows }
    ensures window { LogFlightsStayInTheWindow }
    ensures sectors { LogFlightsAreAtTheirSlots }
    ensures slots { LogSlotsStandOnce }
{}
