// The rule of the board's cell, and what each of its steps tells.
use crate::figures::Figures;
use atomic_table::{Join, Split};
use crossbeam_utils::atomic::seq_cell::{Pass, RuledSeqCell};
use crossbeam_utils::rule::{Outcome, Protocol};
use std::collections::LinkedList;

// What a pass knows: the writer what it published, a reader what it has read; and the lists of the readers taken in. No value of it is made.
pub struct View {
    pub writes: bool,
    pub list: LinkedList<Figures>,
    pub joined: LinkedList<LinkedList<Figures>>,
}

pub struct InOrder;

impl Protocol<Figures, View> for InOrder {
    ghost use Rattle.std.specs.Prelude.{[]};
    ghost use Rattle.frang_board.specs.Rule.{writing, Shows};

    ghost holds = { Shows };

    ghost first = { writing [] [] };
}

// The writer's store.
pub struct Publishes;

impl Outcome<Figures, View> for Publishes {
    ghost use Rattle.frang_board.specs.Rule.{Published};

    ghost then = { Published };
}

// A reader's load.
pub struct LooksOnce;

impl Outcome<Figures, View> for LooksOnce {
    ghost use Rattle.frang_board.specs.Rule.{HasRead};

    ghost then = { HasRead };
}

// The load of the writer's pass behind which the board is closed.
pub struct Compares;

impl Outcome<Figures, View> for Compares {
    ghost use Rattle.frang_board.specs.Rule.{Closes};

    ghost then = { Closes };
}

// The first reader, beside the writer.
pub struct NewReader;

impl Split<View> for NewReader {
    ghost use Rattle.frang_board.specs.Rule.{spent};

    ghost left = { λ v. v };

    ghost right = { λ v. spent };
}

// Another reader, which knows the same.
pub struct Copied;

impl Split<View> for Copied {
    ghost left = { λ v. v };

    ghost right = { λ v. v };
}

// All that a pass knows goes to a new one, which has made no step yet and so can be taken in.
pub struct Whole;

impl Split<View> for Whole {
    ghost use Rattle.frang_board.specs.Rule.{spent};

    ghost left = { λ v. spent };

    ghost right = { λ v. v };
}

// A pass takes a reader's in.
pub struct TakesIn;

impl Join<View> for TakesIn {
    ghost use Rattle.frang_board.specs.Rule.{taken_in, spent};

    ghost both = { taken_in };

    ghost spent = { spent };
}

pub type Cell = RuledSeqCell<Figures, View, InOrder, 4>;

pub type Seat = Pass<Figures, View>;
