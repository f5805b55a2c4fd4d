// What is rebuilt of the lists that a table has.
ghost use Rattle.std.specs.Prelude.{ℕ, List};
ghost use Rattle.frang_base.specs.declared.lock.LockId.{LockId};
ghost use Rattle.frang_base.specs.declared.lock.Mode.{Mode};
ghost use Rattle.lock_definitions.specs.declared.lists.ClerkLocks.{ClerkLocks};
ghost use Rattle.lock_definitions.specs.Locks.{Locks, AreLocks};
ghost use Rattle.lock_definitions.specs.Same.{SameLocks, AllWishesWait};
ghost use Rattle.known_locks.specs.Listed.{clerks_of};
ghost use Rattle.lock_rebuild.specs.Lists.{HasNoClash};
ghost use Rattle.lock_rebuild.specs.Rebuilt.{AreServers, IsRebuilt};
ghost use Rattle.lock_rebuild.specs.Guard.{Guard, GuardCall, after_calls, NewlyGrants, OthersAreSilent, ConflictsWithNone};
ghost use Rattle.lock_rebuild.specs.Missing.{lists_of, TakersAreParties};

/// Of all lists that a table has, those of the servers and of the host, the table that is rebuilt is the same, and notes no wish that
/// conflicts with no holder. Those lists can be given to `rebuild`, and no two of them clash.
pub fn rebuilt_tables_are_the_same()
    ensures same { (lost rebuilt : Locks) → AreLocks lost → TakersAreParties lost → AreLocks rebuilt → IsRebuilt (clerks_of lost) rebuilt → SameLocks rebuilt lost }
    ensures wait { (clerks : List ClerkLocks) (rebuilt : Locks) → IsRebuilt clerks rebuilt → AllWishesWait rebuilt }
    ensures servers { (lost : Locks) → AreLocks lost → AreServers (clerks_of lost) }
    ensures clash { (lost : Locks) → AreLocks lost → HasNoClash (clerks_of lost) }
{}

/// Where the lists of some servers are missing, and these are silent: whatever is then wanted and whoever is cleared, no lock that is newly
/// granted conflicts with another server's hold of the lost table, unless that server was cleared.
pub fn silent_holders_are_waited_for()
    ensures { (lost : Locks) → AreLocks lost → (listed : List ℕ) (guard : Guard) → AreLocks guard.locks → IsRebuilt (lists_of lost listed) guard.locks → OthersAreSilent listed guard → (calls : List GuardCall) (server : ℕ) (lock : LockId) (mode : Mode) → NewlyGrants (after_calls guard calls) server lock mode → ConflictsWithNone lost calls server lock mode }
{}
