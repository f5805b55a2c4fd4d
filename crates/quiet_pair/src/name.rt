// What ties the outside of a pair's first copy to what it was at first.
use std::marker::Brand;

/// Names the outside of a pair's first copy by what it meant at first. The calling function picks the name.
pub trait Naming {
    ghost use Rattle.frang_outside.specs.Outside.{State};

    ghost outset: { State };
}

impl Naming for Brand {
    ghost use Rattle.quiet_pair.specs.FirstCopies.{no_outset};

    ghost outset = { no_outset };
}
