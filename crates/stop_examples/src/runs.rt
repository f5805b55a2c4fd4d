//! A run that meets what is asked.

ghost use Rattle.stop_examples.specs.Looks.{ARunMeetsAll};

/// There is a run of two servers over a fresh disk, with a sync, a death and a recovery, of which all premises of the law on stops hold, and a history told twice beside it.
pub fn a_run_meets_what_is_asked()
    ensures run { ARunMeetsAll }
{}
