// The first copy of a pair.
ghost use Rattle.std.specs.Prelude.{◌≡◌, ◌<◌};
ghost use Rattle.frang_outside.specs.Outside.{Follows, GetOutcome, PutOutcome, SayOutcome};
ghost use Rattle.quiet_outside.specs.KeptLines.{first_quiet, quiet_state, GivesBack, NoneTold};
ghost use Rattle.quiet_pair.specs.FirstCopies.{IsFirstCopy};
ghost use Rattle.sector_bytes.specs.Sectors.{SameSectors};

use crate::Naming;
use frang_base::{Block, Sector, ServerId, Text};
use frang_outside::{Failed, Outside, Put, PutFault, SayFault, Taken};
use quiet_outside::Quiet;
use std::alloc::Global;
use std::marker::{Model, PhantomData};

/// An outside that keeps the lines said and fails at one put, under the name of the outside on which it stands.
pub struct FirstCopy<O: Outside, N: Naming> {
    quiet: Quiet<O>,
    name: PhantomData<N>,
}

impl<O: Outside, N: Naming> Model for FirstCopy<O, N> {
    ghost use Rattle.quiet_outside.specs.KeptLines.{Quieted, quiet_state};
    ghost use Rattle.quiet_pair.specs.FirstCopies.{IsFirstCopy};

    ghost Value = { Quieted O };

    ghost view = { λ f. f.quiet };

    ghost invariant = { λ f. IsFirstCopy N.outset (O.state f.quiet.out) (quiet_state O.state f.quiet).acts f.quiet.puts f.quiet.fail_at f.quiet.failed };
}

impl<O: Outside, N: Naming> FirstCopy<O, N> {
    /// No line is kept. The first put that isn't late and comes behind at least `fail_at - 1` answered ones is to fail. It takes no memory.
    pub fn new(alloc: Global, out: O, fail_at: u64) -> Self
        requires told { NoneTold (O.state out).acts }
        requires fail_at { 0 < fail_at }
        requires name { N.outset ≡ O.state out }
        ensures fresh { result ≡ first_quiet out fail_at }
    {
        FirstCopy {
            quiet: Quiet::new(alloc, out, fail_at),
            name: PhantomData,
        }
    }

    /// What its type keeps.
    pub fn shows(&self)
        ensures { IsFirstCopy N.outset (O.state self.now.out) (quiet_state O.state self.now).acts self.now.puts self.now.fail_at self.now.failed }
    {
        let _quiet = &self.quiet;
    }

    /// The outside below, and the lines kept, in their order.
    pub fn parts(self) -> (O, Vec<Text>)
        ensures out { result.0 ≡ self.out }
        ensures gives { GivesBack (quiet_state O.state self) (O.state result.0) result.1.items }
        ensures kept { IsFirstCopy N.outset (O.state self.out) (quiet_state O.state self).acts self.puts self.fail_at self.failed }
    {
        let FirstCopy { quiet, name: _ } = self;
        quiet.parts()
    }
}

impl<O: Outside, N: Naming> Outside for FirstCopy<O, N> {
    ghost use Rattle.quiet_outside.specs.KeptLines.{quiet_state};
    ghost use Rattle.quiet_outside.specs.QuietAccounts.{quiet_accounts};

    ghost state = { quiet_state O.state };

    ghost accounts = { quiet_accounts O.state O.accounts };

    fn get(&mut self, server: ServerId, sector: Sector) -> Result<Block, Failed> {
        self.quiet.get(server, sector)
    }

    fn put(&mut self, put: &Put) -> Result<Taken, PutFault> {
        self.quiet.put(put)
    }

    fn say(&mut self, line: &[u8]) -> Result<(), SayFault> {
        self.quiet.say(line)
    }
}
