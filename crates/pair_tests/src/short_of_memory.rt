// An outside of the tests: in memory, and each put wants memory.
ghost use Rattle.frang_outside.specs.MemOutside.{memory_accounts, memory_state};
ghost use Rattle.std.specs.Prelude.{◌≡◌, []};

use frang_base::{Block, Sector, ServerId};
use frang_outside::{Failed, MemOutside, Outside, Put, PutFault, SayFault, Taken};
use std::alloc::Global;

#[derive(Drop)]
pub struct ShortOutside {
    inner: MemOutside,
}

impl ShortOutside {
    pub fn new(alloc: Global) -> Self
        ensures { result.inner ≡ [] }
    {
        ShortOutside {
            inner: MemOutside::new(alloc),
        }
    }
}

impl Outside for ShortOutside {
    ghost state = { λ o. memory_state o.inner };

    ghost accounts = { λ o. memory_accounts o.inner };

    fn get(&mut self, server: ServerId, sector: Sector) -> Result<Block, Failed> {
        self.inner.get(server, sector)
    }

    fn put(&mut self, _put: &Put) -> Result<Taken, PutFault> {
        Err(PutFault::NoMemory)
    }

    fn say(&mut self, line: &[u8]) -> Result<(), SayFault> {
        self.inner.say(line)
    }
}
