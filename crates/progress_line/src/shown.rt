// An outside that shows what is done to it.
ghost use Rattle.std.specs.Prelude.{◌≡◌};

use crate::screen::{Place, Screen};
use frang_base::{Block, Sector, ServerId};
use frang_outside::{Failed, Outside, Put, PutFault, SayFault, Taken};
use std::io::Eprint;
use std::marker::Model;
use std::time::Clock;

/// An outside that passes gets, puts and says to another one, as which it is seen, and shows on
/// standard error how many there were, while it goes on.
#[derive(Drop)]
pub struct Shown<O: Outside + Drop, R: Clock + Eprint + Drop> {
    out: O,
    screen: Screen<R>,
}

impl<O: Outside + Drop, R: Clock + Eprint + Drop> Model for Shown<O, R> {
    ghost Value = { O };

    ghost view = { λ s. s.out };
}

impl<O: Outside + Drop, R: Clock + Eprint + Drop> Shown<O, R> {
    /// Nothing is counted, and nothing is written before there were some calls.
    pub fn new(out: O, rt: R, place: Place) -> Self
        ensures { result ≡ out }
    {
        Shown {
            out,
            screen: Screen::new(rt, place),
        }
    }

    /// The outside below. No line stands any more.
    pub fn close(self) -> O
        ensures { result ≡ self }
    {
        let Shown { out, mut screen } = self;
        screen.erase();
        out
    }
}

impl<O: Outside + Drop, R: Clock + Eprint + Drop> Outside for Shown<O, R> {
    ghost state = { O.state };

    ghost accounts = { O.accounts };

    fn get(&mut self, server: ServerId, sector: Sector) -> Result<Block, Failed> {
        self.out.get(server, sector)
    }

    fn put(&mut self, put: &Put) -> Result<Taken, PutFault> {
        let taken = self.out.put(put)?;
        self.screen.add_put(put.now);
        Ok(taken)
    }

    fn say(&mut self, line: &[u8]) -> Result<(), SayFault> {
        self.screen.make_way();
        self.out.say(line)?;
        self.screen.add_line(line);
        Ok(())
    }
}
