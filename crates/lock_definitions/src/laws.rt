// Laws of the definitions, over any calls of a lock table one after another.
ghost use Rattle.std.specs.Prelude.{◌≡◌, ◌↔◌, ◌<◌, ℕ, true, false, Some, List, [], IsBitSet, IsTrue};
ghost use Rattle.std.specs.Map.{lookup};
ghost use Rattle.frang_base.specs.declared.lock.LockId.{LockId};
ghost use Rattle.frang_base.specs.declared.lock.Mode.{Mode};
ghost use Rattle.lock_definitions.specs.declared.claim.Wanted.TheVariants.{Granted, Wait};
ghost use Rattle.lock_definitions.specs.declared.claim.LogHold.{LogHold};
ghost use Rattle.lock_definitions.specs.Order.{is_lock};
ghost use Rattle.lock_definitions.specs.Locks.{Locks, no_locks, claims_of, held, is_wished, log_hold, AreLocks, AreCompatible};
ghost use Rattle.lock_definitions.specs.Calls.{serves, conflicts, holders, wanted, released, cleared, want_answer, asked_for, revokes, log_taken_by};
ghost use Rattle.lock_definitions.specs.Runs.{LockCall, after_calls, asks};
ghost use Rattle.lock_definitions.specs.Same.{SameLocks};

use frang_base::limits::SERVERS;

/// Whatever is called of a lock table and in whatever order, no lock is held sole by one server and in any mode by another.
pub fn holders_stay_compatible()
    ensures state { (calls : List LockCall) → AreLocks (after_calls no_locks calls) }
    ensures compatible { (calls : List LockCall) → AreCompatible (after_calls no_locks calls) }
{}

/// A server that doesn't hold a lock, as one that has released it, gets it by no call until it asks for it.
pub fn locks_are_asked_for()
    ensures unheld { (before since : List LockCall) (server : ℕ) (lock : LockId) → held (after_calls no_locks before) server lock ≡ None → asks server lock since ≡ false → held (after_calls (after_calls no_locks before) since) server lock ≡ None }
    ensures released { (before since : List LockCall) (server : ℕ) (lock : LockId) → asks server lock since ≡ false → held (after_calls (released (after_calls no_locks before) server lock) since) server lock ≡ None }
{}

/// A want is granted exactly where no other server holds the lock in a mode that conflicts. The number that a waiting server is
/// answered has a bit for each server that does, and no other.
pub fn waits_for_each_holder()
    ensures granted { (locks : Locks) → AreLocks locks → (server : ℕ) (lock : LockId) (mode : Mode) → (want_answer locks server lock mode ≡ Granted) ↔ ((other : ℕ) → conflicts locks server lock mode other ≡ false) }
    ensures bits { (locks : Locks) (server : ℕ) (lock : LockId) (mode : Mode) (other : ℕ) → IsBitSet (holders locks server lock mode) other ↔ ((other < SERVERS) × IsTrue (conflicts locks server lock mode other)) }
{}

/// A want that the server's own hold serves is granted, and leaves the mode. After a grant the server's hold serves the want, and
/// its wish has ended. Who waits has its wish noted, and holds what it held.
pub fn wants_are_granted_or_noted()
    ensures own { (locks : Locks) → AreLocks locks → (server : ℕ) (lock : LockId) (mode : Mode) → server < SERVERS → serves (held locks server lock) mode ≡ true → (want_answer locks server lock mode ≡ Granted) × (held (wanted locks server lock mode) server lock ≡ held locks server lock) }
    ensures granted { (locks : Locks) → AreLocks locks → (server : ℕ) (lock : LockId) (mode : Mode) → server < SERVERS → want_answer locks server lock mode ≡ Granted → (serves (held (wanted locks server lock mode) server lock) mode ≡ true) × (is_wished (wanted locks server lock mode) server lock mode ≡ false) }
    ensures noted { (locks : Locks) → AreLocks locks → (server : ℕ) (lock : LockId) (mode : Mode) → server < SERVERS → (others : ℕ) → want_answer locks server lock mode ≡ Wait others → (is_wished (wanted locks server lock mode) server lock mode ≡ true) × (held (wanted locks server lock mode) server lock ≡ held locks server lock) }
{}

/// A server that was cleared neither holds nor wishes anything, has taken no log, and nobody has taken its own.
pub fn cleared_servers_have_nothing()
    ensures claims { (locks : Locks) → AreLocks locks → (dead : ℕ) → claims_of (cleared locks dead) dead ≡ [] }
    ensures logs { (locks : Locks) (dead log : ℕ) (hold : LogHold) → log_hold (cleared locks dead) log ≡ Some hold → (hold.by.0 ≡ dead → ⊥) × (log ≡ dead → ⊥) }
{}

/// What a server is asked for is listed once for each lock: where a noted wish of another server conflicts with its hold.
pub fn each_asked_lock_is_listed()
    ensures { (locks : Locks) (server : ℕ) (lock : LockId) → lookup (is_lock lock) (revokes locks server) ≡ asked_for locks server lock }
{}

/// Tables with the same locks answer alike.
pub fn same_locks_answer_alike()
    ensures held { (a b : Locks) → SameLocks a b → (server : ℕ) (lock : LockId) → held a server lock ≡ held b server lock }
    ensures wanted { (a b : Locks) → SameLocks a b → (server : ℕ) (lock : LockId) (mode : Mode) → want_answer a server lock mode ≡ want_answer b server lock mode }
    ensures asked { (a b : Locks) → SameLocks a b → AreLocks a → (server : ℕ) (lock : LockId) → asked_for a server lock ≡ asked_for b server lock }
    ensures logs { (a b : Locks) → SameLocks a b → (dead by now : ℕ) → log_taken_by a dead by now ≡ log_taken_by b dead by now }
{}
