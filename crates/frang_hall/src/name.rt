// What ties the hall that comes out of the lock to the hall that went in.
use std::marker::Brand;

/// Names a hall by its setting and its outside at the start. The calling function picks the name.
pub trait Naming {
    ghost use Rattle.hall_runs.specs.Outsets.{Outset};

    ghost outset: { Outset };
}

impl Naming for Brand {
    ghost use Rattle.hall_runs.specs.Outsets.{no_outset};

    ghost outset = { no_outset };
}
