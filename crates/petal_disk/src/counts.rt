// How many writes of each server's present mount are in flight.
ghost use Rattle.std.specs.Prelude.{◌≡◌, ◌+◌, ◌<◌, slice_index, slice_set};
ghost use Rattle.petal_disk.specs.Keeping.{fewer, no_counts};

use frang_base::ServerId;
use std::marker::Model;

/// How many numbers a server may have.
const NUMBERS: usize = 256;

/// A count for each number that a server may have.
#[derive(Drop)]
pub(crate) struct Counts {
    counts: [usize; NUMBERS],
}

impl Model for Counts {
    ghost use Rattle.std.specs.Prelude.{◌≡◌, List, ℕ, length};
    ghost use Rattle.petal_disk.specs.declared.counts.TheConstants.{NUMBERS};

    ghost Value = { List ℕ };

    ghost view = { λ counts. counts.counts };

    ghost invariant = { λ counts. length counts.counts ≡ NUMBERS };
}

impl Counts {
    /// All are 0.
    #[tactic(auto, unfolding(crate::specs::Keeping::no_counts))]
    pub(crate) fn new() -> Counts
        ensures { result ≡ no_counts }
    {
        Counts {
            counts: [0; NUMBERS],
        }
    }

    /// A server's.
    pub(crate) fn get(&self, server: ServerId) -> usize
        ensures count { result ≡ slice_index self.now server.0 }
        ensures party { server.0 < NUMBERS }
    {
        self.counts[server.0 as usize]
    }

    /// One more of a server.
    pub(crate) fn more(&mut self, server: ServerId)
        requires { slice_index self.old server.0 < usize.MAX }
        ensures counts { self.new ≡ slice_set self.old server.0 (slice_index self.old server.0 + 1) }
        ensures party { server.0 < NUMBERS }
    {
        let count = self.get(server);
        self.counts[server.0 as usize] = count + 1;
    }

    /// One less of a server, where the write was of its present mount.
    pub(crate) fn fewer(&mut self, server: ServerId, present: bool)
        ensures counts { self.new ≡ fewer self.old server.0 present }
        ensures party { server.0 < NUMBERS }
    {
        if present {
            let count = self.get(server);
            self.counts[server.0 as usize] = count.saturating_sub(1);
        }
    }

    /// None of a server.
    pub(crate) fn clear(&mut self, server: ServerId)
        ensures counts { self.new ≡ slice_set self.old server.0 0 }
        ensures party { server.0 < NUMBERS }
    {
        self.counts[server.0 as usize] = 0;
    }
}
