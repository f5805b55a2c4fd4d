// The outside of the program.
ghost use Rattle.std.specs.Prelude.{◌≡◌, []};
ghost use Rattle.frang_outside.specs.StdOutside.{AnswersPrinted};

use crate::blocks::Blocks;
use crate::{Failed, Outside, Put, PutFault, SayFault, Taken};
use frang_base::{Block, Sector, ServerId};
use std::alloc::Global;
use std::io;
use std::marker::Model;

/// The outside of the program. Its sectors are in memory, and it says to standard output. It tells
/// no record, so a line isn't kept. Gets and puts don't fail; the count of failed says stands still
/// at its type's end.
#[derive(Drop)]
pub struct StdOutside<R: Print + Drop> {
    rt: R,
    blocks: Blocks,
    say_faults: u64,
}

impl<R: Print + Drop> Model for StdOutside<R> {
    ghost use Rattle.frang_outside.specs.StdOutside.{Standard};

    ghost Value = { Standard };

    ghost view = { λ o. record { blocks = o.blocks; say_faults = o.say_faults } };
}

impl<R: Print + Drop> StdOutside<R> {
    /// All sectors are zero, and no say has failed. It takes no memory.
    pub fn new(alloc: Global, rt: R) -> Self
        ensures blocks { result.blocks ≡ [] }
        ensures say_faults { result.say_faults ≡ 0 }
    {
        StdOutside {
            rt,
            blocks: Blocks::new(alloc),
            say_faults: 0,
        }
    }
}

impl<R: Print + Drop> Outside for StdOutside<R> {
    ghost use Rattle.frang_outside.specs.StdOutside.{standard_state, standard_accounts};

    ghost state = { standard_state };

    ghost accounts = { standard_accounts };

    fn get(&mut self, _server: ServerId, sector: Sector) -> Result<Block, Failed> {
        Ok(self.blocks.get(sector))
    }

    fn put(&mut self, put: &Put) -> Result<Taken, PutFault> {
        if put.stamp < put.now {
            return Ok(Taken::Late);
        }
        self.blocks.set(put.sector, put.bytes)?;
        Ok(Taken::Written)
    }

    /// Writes the whole line. `Failed` may have written a part of it.
    fn say(&mut self, line: &[u8]) -> Result<(), SayFault> {
        answer_printed(self.rt.write_all(line), &mut self.say_faults)
    }
}

// What a say answers by what the printer answered. A failure is counted.
fn answer_printed(printed: io::Result<()>, faults: &mut u64) -> Result<(), SayFault>
    ensures { AnswersPrinted printed faults.old faults.new result }
{
    match printed {
        Ok(()) => Ok(()),
        Err(_) => {
            *faults = faults.saturating_add(1);
            Err(SayFault::Failed)
        }
    }
}
