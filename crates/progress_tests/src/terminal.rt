// A clock and a terminal in memory.
use std::alloc::Global;
use std::cell::{Cell, RefCell};
use std::fmt::{Display, Write};
use std::io;
use std::io::{Eprint, ErrorKind};
use std::time::{Clock, Duration};

/// A clock that goes on by a number of milliseconds at each reading, and a terminal that keeps the
/// text that is written.
pub struct Terminal {
    reading: Cell<u64>,
    milliseconds: u64,
    text: RefCell<String>,
}

impl Terminal {
    /// The clock begins at 0, and nothing is written.
    pub fn new(alloc: Global, milliseconds: u64) -> Self {
        Terminal {
            reading: Cell::new(0),
            milliseconds,
            text: RefCell::new(String::new(alloc)),
        }
    }

    /// All that was written.
    pub fn text(self) -> String {
        let Terminal {
            reading: _,
            milliseconds: _,
            text,
        } = self;
        text.into_inner()
    }
}

impl Clock for Terminal {
    fn monotonic(&self) -> io::Result<Duration> {
        let reading = self.reading.get();
        self.reading.set(reading.saturating_add(self.milliseconds));
        Ok(Duration::from_millis(reading))
    }

    fn since_1970(&self) -> io::Result<Duration> {
        self.monotonic()
    }
}

fn refused() -> io::Error {
    io::Error::from(ErrorKind::Other)
}

impl Eprint for Terminal {
    fn eprint<D: Display + Drop>(&self, value: D) -> io::Result<()> {
        let Ok(mut text) = self.text.try_borrow_mut() else {
            return Err(refused());
        };
        match write!(text, "{value}") {
            Ok(()) => Ok(()),
            Err(_) => Err(refused()),
        }
    }

    fn eprintln<D: Display + Drop>(&self, value: D) -> io::Result<()> {
        self.eprint(value)?;
        self.eprint("\n")
    }
}
