// An outside that keeps the lines said.
ghost use Rattle.std.specs.Prelude.{◌≡◌, true, Some};
ghost use Rattle.frang_outside.specs.Outside.{Follows, GetOutcome, PutOutcome, SayOutcome};
ghost use Rattle.quiet_outside.specs.KeptLines.{first_over, first_quiet, is_due, quiet_state, GivesBack, NoneTold, Passes, PassedPut, QuietPut, QuietSay};
ghost use Rattle.sector_bytes.specs.Sectors.{SameSectors};

use frang_base::{Block, NoMemory, Sector, ServerId, Text};
use frang_outside::{Failed, Outside, Put, PutFault, SayFault, Taken};
use std::alloc::Global;
use std::marker::Model;

/// An outside that passes gets and puts to another one, and keeps the lines said itself. Its record
/// has them at their places among the acts of the other. It can be made to fail at one put, and
/// then it keeps the fault itself, too. After 2^64 - 1 answered puts each further one wants memory.
pub struct Quiet<O: Outside> {
    alloc: Global,
    out: O,
    lines: Vec<Text>,
    // For each line how many puts were answered before it.
    befores: Vec<u64>,
    // How many puts were answered.
    puts: u64,
    // The number of the put that is to fail, from 1 on, or 0.
    fail_at: u64,
    // The server of the put that has failed.
    failed: Option<ServerId>,
}

impl<O: Outside> Model for Quiet<O> {
    ghost use Rattle.quiet_outside.specs.KeptLines.{IsQuieted, Quieted};

    ghost Value = { Quieted O };

    ghost view = { λ q. record {
      out = q.out;
      lines = q.lines.items;
      befores = q.befores.items;
      puts = q.puts;
      fail_at = q.fail_at;
      failed = q.failed;
    } };

    ghost invariant = { λ q. IsQuieted (O.state q.out) q.befores.items q.lines.items q.puts q.fail_at
        q.failed };
}

impl<O: Outside> Quiet<O> {
    /// No line is kept. The first put that isn't late and comes behind at least `fail_at - 1`
    /// answered ones is to fail; with 0 there is none. It takes no memory.
    pub fn new(alloc: Global, out: O, fail_at: u64) -> Self
        requires { NoneTold (O.state out).acts }
        ensures fresh { result ≡ first_quiet out fail_at }
        ensures state { quiet_state O.state result ≡ first_over (O.state out) fail_at }
    {
        Quiet {
            alloc,
            out,
            lines: Vec::new(alloc),
            befores: Vec::new(alloc),
            puts: 0,
            fail_at,
            failed: None,
        }
    }

    /// The outside below, and the lines kept, in their order.
    pub fn parts(self) -> (O, Vec<Text>)
        ensures out { result.0 ≡ self.out }
        ensures lines { result.1.items ≡ self.lines }
        ensures gives { GivesBack (quiet_state O.state self) (O.state result.0) result.1.items }
    {
        let Quiet {
            alloc: _,
            out,
            lines,
            befores: _befores,
            puts: _,
            fail_at: _,
            failed: _,
        } = self;
        (out, lines)
    }

    // Whether this put is the one that is to fail.
    fn is_due(&self, put: &Put) -> bool
        ensures { result ≡ is_due self.now put.entry.now }
    {
        self.failed.is_none()
            && 0 < self.fail_at
            && self.fail_at - 1 <= self.puts
            && put.now <= put.stamp
    }

    // Fails at this put.
    fn fail(&mut self, put: &Put)
        requires { is_due self.old put.now ≡ true }
        ensures failed { self.new ≡ record self.old { failed = Some put.entry.now.server } }
    {
        self.failed = Some(put.server);
    }

    // Passes a put on.
    fn pass(&mut self, put: &Put) -> Result<Taken, PutFault>
        ensures counts { Follows (quiet_state O.state self.old) (quiet_state O.state self.new) }
        ensures outcome { PutOutcome (quiet_state O.state self.old)
            (quiet_state O.state self.new) put.entry.now result }
        ensures answer { PassedPut self.old self.new result }
        ensures below { Follows (O.state self.old.out) (O.state self.new.out) }
    {
        if self.puts == u64::MAX {
            return Err(PutFault::NoMemory);
        }
        match self.out.put(put) {
            Ok(taken) => {
                self.puts += 1;
                Ok(taken)
            }
            Err(fault) => Err(fault),
        }
    }
}

impl<O: Outside> Outside for Quiet<O> {
    ghost use Rattle.quiet_outside.specs.KeptLines.{quiet_state};
    ghost use Rattle.quiet_outside.specs.QuietAccounts.{quiet_accounts};

    ghost state = { quiet_state O.state };

    ghost accounts = { quiet_accounts O.state O.accounts };

    fn get(&mut self, server: ServerId, sector: Sector) -> Result<Block, Failed>
        ensures sectors { SameSectors (quiet_state O.state self.new).sectors
            (quiet_state O.state self.old).sectors }
        ensures acts { (quiet_state O.state self.new).acts ≡ (quiet_state O.state self.old).acts }
        ensures counts { Follows (quiet_state O.state self.old) (quiet_state O.state self.new) }
        ensures outcome { GetOutcome (quiet_state O.state self.old)
            (quiet_state O.state self.new) server.0 sector.0 result }
        ensures passes { Passes self.old self.new }
        ensures below { Follows (O.state self.old.out) (O.state self.new.out) }
    {
        self.out.get(server, sector)
    }

    fn put(&mut self, put: &Put) -> Result<Taken, PutFault>
        ensures counts { Follows (quiet_state O.state self.old) (quiet_state O.state self.new) }
        ensures outcome { PutOutcome (quiet_state O.state self.old)
            (quiet_state O.state self.new) put.entry.now result }

        // The put that is to fail doesn't reach the outside below, and every other does.
        ensures answer { QuietPut self.old self.new put.entry.now result }
        ensures below { Follows (O.state self.old.out) (O.state self.new.out) }
    {
        if self.is_due(put) {
            self.fail(put);
            return Err(PutFault::Failed);
        }
        self.pass(put)
    }

    fn say(&mut self, line: &[u8]) -> Result<(), SayFault>
        ensures sectors { SameSectors (quiet_state O.state self.new).sectors
            (quiet_state O.state self.old).sectors }
        ensures counts { Follows (quiet_state O.state self.old) (quiet_state O.state self.new) }
        ensures outcome { SayOutcome (quiet_state O.state self.old)
            (quiet_state O.state self.new) line.now result }

        // It never fails, and the outside below is as it was.
        ensures answer { QuietSay self.old self.new line.now result }
    {
        let text = Text::of(self.alloc, line)?;
        self.lines.reserve(1)?;
        self.befores.reserve(1)?;
        self.lines.push_reserved(text);
        self.befores.push_reserved(self.puts);
        Ok(())
    }
}
