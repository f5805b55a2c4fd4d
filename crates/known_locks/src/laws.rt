// What the lists of the parties say, and a table in whose place another can stand.
ghost use Rattle.std.specs.Prelude.{◌≡◌, ℕ, true};
ghost use Rattle.std.specs.List.Sorted.{IsStrictlySortedBy};
ghost use Rattle.std.specs.Map.{lookup, keys_of};
ghost use Rattle.frang_base.specs.declared.lock.LockId.{LockId};
ghost use Rattle.frang_base.specs.declared.lock.LockId.TheVariants.{Node};
ghost use Rattle.frang_base.specs.declared.lock.Mode.TheVariants.{Shared};
ghost use Rattle.lock_definitions.specs.Order.{lock_cmp, is_lock};
ghost use Rattle.lock_definitions.specs.Locks.{Locks, no_locks, held, is_wished, AreLocks};
ghost use Rattle.lock_definitions.specs.Same.{SameLocks, AllWishesWait};
ghost use Rattle.known_locks.specs.Examples.{released_by_0};
ghost use Rattle.known_locks.specs.Listed.{clerk_of};

/// A party lists each lock that it holds once, with its mode, and no other; the locks ascend.
pub fn parties_list_what_they_hold()
    ensures held { (locks : Locks) → AreLocks locks → (party : ℕ) (lock : LockId) → lookup (is_lock lock) (clerk_of locks party).held ≡ held locks party lock }
    ensures ordered { (locks : Locks) → AreLocks locks → (party : ℕ) → IsStrictlySortedBy lock_cmp (keys_of (clerk_of locks party).held) }
{}

/// A table that notes a wish which conflicts with no holder, since the holder has released the lock, is the same as one that doesn't
/// note it: such a table can stand in its place.
pub fn released_wishes_can_be_forgotten()
    ensures noted { is_wished released_by_0 1 (Node 1) Shared ≡ true }
    ensures same { SameLocks no_locks released_by_0 }
    ensures wait { AllWishesWait no_locks }
{}
