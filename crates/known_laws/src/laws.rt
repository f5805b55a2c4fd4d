//! Which nodes an entry touches, and what stays kept with one step more.

ghost use Rattle.known_laws.specs.Knowing.{KnownStays};
ghost use Rattle.known_laws.specs.There.{ChangedAreThereOrNew, TouchedAreThere};

/// A node that an entry touches is there, or the entry changes it; and one that it changes is there, or has the entry's number.
pub fn touched_nodes_are_there()
    ensures touched { TouchedAreThere }
    ensures changed { ChangedAreThereOrNew }
{}

/// A recovery that removes nothing that is seen or synced removes nothing that is with one step more at the end, where this step shows nothing of what the
/// recovery removes, and makes none of it sure.
pub fn what_is_kept_stays_kept()
    ensures stays { KnownStays }
{}
