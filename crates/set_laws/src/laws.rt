// A set of locks beside the locks of which it is made.
ghost use Rattle.set_laws.specs.Laws.{ASetIsLackedAsItsLocksAre, ASetJoinsAsItsLocksDo};

/// Locks that are made a set first join another set as they do one by one.
pub fn a_set_joins_as_its_locks_do()
    ensures joined { ASetJoinsAsItsLocksDo }
{}

/// A set lacks one of some locks exactly where it lacks one of the set that they make.
pub fn a_set_is_lacked_as_its_locks_are()
    ensures lacking { ASetIsLackedAsItsLocksAre }
{}
