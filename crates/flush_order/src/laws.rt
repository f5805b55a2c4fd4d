// Laws of marks.
ghost use Rattle.std.specs.Prelude.{◌≡◌, ℕ, List};
ghost use Rattle.flush_order.specs.declared.Mark.{Mark};
ghost use Rattle.flush_order.specs.Marks.{first_reached, in_order, next_reached};

/// Of dirty sectors in order of their marks, those of one mark by sector, the first that may be written is the one with the least
/// mark, where that is reached; and where it isn't, none may be written.
pub fn the_first_in_order_is_the_least()
    ensures { (dirty : List Mark) (reached : ℕ) → first_reached (in_order dirty) reached ≡ next_reached dirty reached }
{}
