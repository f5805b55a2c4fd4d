// Laws of what was seen.
ghost use Rattle.std.specs.Prelude.{◌≡◌, ◌↔◌, IsSome};
ghost use Rattle.disk_definitions.specs.Written.{Cached};
ghost use Rattle.set_definitions.specs.Seen.{HasMoved, SeenSectors, compared, first_moved};

/// A sector that has moved is named exactly where the comparison ends with one that has.
pub fn a_sector_is_named_where_one_has_moved()
    ensures { (seen : SeenSectors) (cached : Cached) → IsSome (first_moved seen cached) ↔ (compared seen cached ≡ HasMoved) }
{}
