//! What the core's servers wish of the lock table, over every run. Each law is the contract of a public function with an empty body.

ghost use Rattle.core_laws.specs.Wishes.{WishesAreForTheNextLock, StillWishesNothing};

/// Over every run from an opening a noted wish of a server that is Up is for the least lock that its line under way must ask, in the mode in which it must, so
/// that it has one at most; and a server that is Still has none. The wishes of a dead server stay until its log is recovered.
pub fn a_wish_is_for_the_next_lock()
    ensures next { WishesAreForTheNextLock }
    ensures still { StillWishesNothing }
{}
