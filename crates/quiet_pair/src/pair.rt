// The pair.
ghost use Rattle.std.specs.Prelude.{◌≡◌, ◌<◌, ℕ, true, is_some};
ghost use Rattle.frang_outside.specs.Outside.{Follows, GetOutcome, PutOutcome, SayOutcome};
ghost use Rattle.petal_pair.specs.PairedCopies.{pair_state, IsZero};
ghost use Rattle.petal_pair.specs.declared.in_use.InUse.TheVariants.{Both};
ghost use Rattle.quiet_outside.specs.KeptLines.{fail_at_of, quiet_state, NoneTold};
ghost use Rattle.quiet_pair.specs.Ties.{GivesFirst, HasBegun, HasCause, is_second_out};
ghost use Rattle.sector_bytes.specs.Sectors.{SameSectors};

use crate::{FirstCopy, Naming};
use frang_base::{Block, Sector, ServerId, Text};
use frang_outside::{Failed, Outside, Put, PutFault, SayFault, Taken};
use petal_pair::Pair;
use std::alloc::Global;
use std::marker::Model;

/// A pair of an outside that keeps the lines said and fails at one put, and of another outside. A copy that goes out stays out.
pub struct QuietPair<O: Outside, B: Outside + Drop, N: Naming> {
    pair: Pair<FirstCopy<O, N>, B>,
}

impl<O: Outside, B: Outside + Drop, N: Naming> Model for QuietPair<O, B, N> {
    ghost use Rattle.petal_pair.specs.PairedCopies.{Paired};
    ghost use Rattle.quiet_outside.specs.KeptLines.{Quieted, quiet_state};
    ghost use Rattle.quiet_pair.specs.Ties.{IsTied};

    ghost Value = { Paired (Quieted O) B };

    ghost view = { λ p. p.pair };

    ghost invariant = { λ p. IsTied N.outset (quiet_state O.state p.pair.first) (B.state p.pair.second) p.pair.in_use p.pair.acts p.pair.faults p.pair.say_faults };
}

impl<O: Outside, B: Outside + Drop, N: Naming> QuietPair<O, B, N> {
    /// Both copies are in use. The first stands on this outside, and is to fail at the first put that isn't late and comes behind at least `fail_at - 1` answered ones. It takes no memory.
    pub fn new(alloc: Global, out: O, fail_at: u64, second: B) -> Self
        requires told { NoneTold (O.state out).acts }
        requires first { IsZero (O.state out).sectors }
        requires second { IsZero (B.state second).sectors }
        requires second_told { is_some (B.state second).acts ≡ true }
        requires fail_at { 0 < fail_at }
        requires name { N.outset ≡ O.state out }
        ensures { HasBegun fail_at (O.state out) (pair_state (quiet_state O.state) B.state result) }
    {
        let first = FirstCopy::new(alloc, out, fail_at);
        QuietPair {
            pair: Pair::new(alloc, first, second),
        }
    }

    /// Whether the second copy is out.
    pub fn is_second_out(&self) -> bool
        ensures { result ≡ is_second_out self.now.in_use }
    {
        self.pair.out() == Some(1)
    }

    /// The outside on which the first copy stood, and the lines kept, in their order.
    pub fn parts(self) -> (O, Vec<Text>)
        ensures gives { GivesFirst (fail_at_of (pair_state (quiet_state O.state) B.state self).mark) N.outset (O.state result.0) self.in_use (pair_state (quiet_state O.state) B.state self) result.1.items }
        ensures causes { (party : ℕ) → HasCause self.in_use (B.state self.second) party ((pair_state (quiet_state O.state) B.state self).faults party) }
        ensures calm { (pair_state (quiet_state O.state) B.state self).say_faults ≡ 0 }
    {
        let QuietPair { pair } = self;
        let (first, _second) = pair.parts();
        first.parts()
    }
}

impl<O: Outside, B: Outside + Drop, N: Naming> Outside for QuietPair<O, B, N> {
    ghost use Rattle.petal_pair.specs.PairedCopies.{pair_state, pair_accounts};
    ghost use Rattle.quiet_outside.specs.KeptLines.{quiet_state};

    ghost state = { pair_state (quiet_state O.state) B.state };

    ghost accounts = { pair_accounts (quiet_state O.state) B.state };

    fn get(&mut self, server: ServerId, sector: Sector) -> Result<Block, Failed> {
        self.pair.first().shows();
        self.pair.get(server, sector)
    }

    fn put(&mut self, put: &Put) -> Result<Taken, PutFault> {
        self.pair.first().shows();
        self.pair.put(put)
    }

    fn say(&mut self, line: &[u8]) -> Result<(), SayFault> {
        self.pair.say(line)
    }
}
