// Two copies of a disk that answer as one.
ghost use Rattle.std.specs.Prelude.{◌≡◌};
ghost use Rattle.frang_outside.specs.Outside.{Follows, GetOutcome, PutOutcome, SayOutcome};
ghost use Rattle.petal_pair.specs.PairedCopies.{pair_state, IsPair, IsFresh, IsZero, out_of};
ghost use Rattle.petal_pair.specs.PairedCalls.{PairGot, PairPut, PairSaid};
ghost use Rattle.petal_pair.specs.Refilling.{PairRefilled};
ghost use Rattle.petal_pair.specs.declared.in_use.InUse.TheVariants.{Both};
ghost use Rattle.sector_bytes.specs.Sectors.{SameSectors};

use crate::InUse;
use crate::asking::{get_of_used, put_to_used};
use crate::counting::no_faults;
use crate::keeping::{count_get, count_put, count_say, note_missed, note_put, note_said};
use crate::refilling::{RefillFault, clear_refilled, copy_to_out, count_refill, in_use_refilled};
use frang_base::{Block, Sector, ServerId, Text};
use frang_outside::{Act, Failed, Outside, Put, PutFault, SayFault, Taken};
use std::alloc::Global;
use std::marker::Model;

/// Two copies of a disk that answer as one disk while one of them works. A copy that fails goes out
/// where the other is in use, and can be refilled. The pair has a record and counts of its own, and
/// tells its record where both copies tell theirs.
pub struct Pair<A: Outside, B: Outside> {
    alloc: Global,
    first: A,
    second: B,
    in_use: InUse,
    // The sectors that the copy that is out has missed, once for each put.
    missed: Vec<Sector>,
    acts: Vec<Act>,
    // How many gets and puts have failed that named a party, at its number. Each stands still at
    // its type's end.
    faults: [u64; 256],
    // How many says have failed. It stands still at its type's end.
    say_faults: u64,
}

impl<A: Outside, B: Outside> Model for Pair<A, B> {
    ghost use Rattle.petal_pair.specs.PairedCopies.{IsPaired, Paired};

    ghost Value = { Paired A B };

    ghost view = { λ p. record {
      first = p.first;
      second = p.second;
      in_use = p.in_use;
      missed = p.missed.items;
      acts = p.acts.items;
      faults = p.faults;
      say_faults = p.say_faults;
    } };

    ghost invariant = { λ p. IsPaired (A.state p.first) (B.state p.second) p.in_use p.missed.items p.acts.items };
}

impl<A: Outside, B: Outside> Pair<A, B> {
    /// Both copies are in use. Its record is empty, and its counts are 0. It takes no memory.
    pub fn new(alloc: Global, first: A, second: B) -> Self
        requires first { IsZero (A.state first).sectors }
        requires second { IsZero (B.state second).sectors }
        ensures copies { IsFresh result first second }
        ensures pair { IsPair A.state B.state result }
    {
        Pair {
            alloc,
            first,
            second,
            in_use: InUse::Both,
            missed: Vec::new(alloc),
            acts: Vec::new(alloc),
            faults: no_faults(),
            say_faults: 0,
        }
    }

    /// The copy that is out, 0 or 1. `None` exactly where both are in use.
    pub fn out(&self) -> Option<u8>
        ensures out { result ≡ out_of self.now.in_use }
        ensures pair { IsPair A.state B.state self.now }
    {
        let _ = &self.missed;
        match self.in_use {
            InUse::Both => None,
            InUse::FirstAlone => Some(1),
            InUse::SecondAlone => Some(0),
        }
    }

    /// The first copy, in use or not.
    pub fn first(&self) -> &A
        ensures first { result.now ≡ self.now.first }
    {
        &self.first
    }

    /// Copies the missed sectors from the copy in use to the one that is out. Then both are in use.
    /// After a refusal the copy stays out, and the pair's sectors and the list of those missed are
    /// as before.
    pub fn refill(&mut self) -> Result<(), RefillFault>
        requires { self.old.in_use ≡ Both → ⊥ }
        ensures refilled { PairRefilled A.state B.state self.old self.new result }
        ensures sectors { SameSectors (pair_state A.state B.state self.new).sectors
            (pair_state A.state B.state self.old).sectors }
        ensures acts { (pair_state A.state B.state self.new).acts ≡ (pair_state A.state B.state self.old).acts }
        ensures counts { Follows (pair_state A.state B.state self.old) (pair_state A.state B.state self.new) }
        ensures pair { IsPair A.state B.state self.new }
    {
        let answer = copy_to_out(&mut self.first, &mut self.second, self.in_use, &self.missed);
        count_refill(&mut self.faults, answer);
        clear_refilled(&mut self.missed, answer);
        self.in_use = in_use_refilled(self.in_use, answer);
        answer
    }

    /// The first copy and the second.
    pub fn parts(self) -> (A, B)
        ensures first { result.0 ≡ self.first }
        ensures second { result.1 ≡ self.second }
        ensures pair { IsPair A.state B.state self }
    {
        let Pair {
            alloc: _,
            first,
            second,
            in_use: _,
            missed: _missed,
            acts: _acts,
            faults: _,
            say_faults: _,
        } = self;
        (first, second)
    }
}

impl<A: Outside, B: Outside> Outside for Pair<A, B> {
    ghost use Rattle.petal_pair.specs.PairedCopies.{pair_state, pair_accounts};

    ghost state = { pair_state A.state B.state };

    ghost accounts = { pair_accounts A.state B.state };

    fn get(&mut self, server: ServerId, sector: Sector) -> Result<Block, Failed>
        ensures sectors { SameSectors (pair_state A.state B.state self.new).sectors
            (pair_state A.state B.state self.old).sectors }
        ensures acts { (pair_state A.state B.state self.new).acts ≡ (pair_state A.state B.state self.old).acts }
        ensures counts { Follows (pair_state A.state B.state self.old) (pair_state A.state B.state self.new) }
        ensures outcome { GetOutcome (pair_state A.state B.state self.old)
            (pair_state A.state B.state self.new) server.0 sector.0 result }

        // What it asked of its copies, and what it kept.
        ensures answer { PairGot A.state B.state self.old self.new server.0 sector.0 result }
        ensures pair { IsPair A.state B.state self.new }
    {
        let (answer, in_use) = get_of_used(
            &mut self.first,
            &mut self.second,
            self.in_use,
            server,
            sector,
        );
        count_get(&mut self.faults, server, &answer);
        self.in_use = in_use;
        answer
    }

    fn put(&mut self, put: &Put) -> Result<Taken, PutFault>
        ensures counts { Follows (pair_state A.state B.state self.old) (pair_state A.state B.state self.new) }
        ensures outcome { PutOutcome (pair_state A.state B.state self.old)
            (pair_state A.state B.state self.new) put.entry.now result }

        // What it put to its copies, and what it kept.
        ensures answer { PairPut A.state B.state self.old self.new put.entry.now result }
        ensures pair { IsPair A.state B.state self.new }
    {
        self.missed.reserve(1)?;
        self.acts.reserve(1)?;
        let (answer, in_use) = put_to_used(&mut self.first, &mut self.second, self.in_use, put);
        note_missed(&mut self.missed, self.in_use, in_use, put.sector, answer);
        note_put(&mut self.acts, put, answer);
        count_put(&mut self.faults, put.server, answer);
        self.in_use = in_use;
        answer
    }

    fn say(&mut self, line: &[u8]) -> Result<(), SayFault>
        ensures sectors { SameSectors (pair_state A.state B.state self.new).sectors
            (pair_state A.state B.state self.old).sectors }
        ensures counts { Follows (pair_state A.state B.state self.old) (pair_state A.state B.state self.new) }
        ensures outcome { SayOutcome (pair_state A.state B.state self.old)
            (pair_state A.state B.state self.new) line.now result }

        // What it said to the first copy, and what it kept.
        ensures answer { PairSaid A.state B.state self.old self.new line.now result }
        ensures pair { IsPair A.state B.state self.new }
    {
        let text = Text::of(self.alloc, line)?;
        self.acts.reserve(1)?;
        let answer = self.first.say(line);
        note_said(&mut self.acts, text, answer);
        count_say(&mut self.say_faults, answer);
        answer
    }
}
