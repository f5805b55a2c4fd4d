// The line on standard error.
use crate::Counts;
use std::io::Eprint;
use std::time::{Clock, Duration, Instant};

/// Where the line stands.
#[derive(Clone, Copy, PartialEq, Eq)]
pub enum Place {
    /// Nowhere: nothing is written.
    Nowhere,
    /// On a terminal that takes no said lines.
    Apart,
    /// On the terminal that takes the said lines, too: before each the line is erased.
    AmongLines,
}

// The clock is read at one call of so many, for a put takes less time than a reading.
const CALLS_BY_READING: u32 = 64;

// How long a line stands at least.
const MILLISECONDS_SHOWN: u64 = 100;

// The counts, and the line that shows them. A failed write is passed over, and so is a clock that can't be read.
#[derive(Drop)]
pub(crate) struct Screen<R: Clock + Eprint + Drop> {
    rt: R,
    place: Place,
    counts: Counts,
    // How many calls came since the clock was read.
    calls: u32,
    // When the line was last written, or else when the clock was first read.
    written: Option<Instant>,
    // Whether a line stands.
    stands: bool,
}

impl<R: Clock + Eprint + Drop> Screen<R> {
    pub(crate) fn new(rt: R, place: Place) -> Self {
        Screen {
            rt,
            place,
            counts: Counts::none(),
            calls: 0,
            written: None,
            stands: false,
        }
    }

    // A line was said.
    pub(crate) fn add_line(&mut self, line: &[u8]) {
        if self.place != Place::Nowhere {
            self.counts.add_line(line);
            self.pass();
        }
    }

    // A put was answered at this tick.
    pub(crate) fn add_put(&mut self, now: u64) {
        if self.place != Place::Nowhere {
            self.counts.add_put(now);
            self.pass();
        }
    }

    // Before a line is said.
    pub(crate) fn make_way(&mut self) {
        if self.place == Place::AmongLines {
            self.erase();
        }
    }

    // Leaves no line.
    pub(crate) fn erase(&mut self) {
        if self.stands {
            let _ = eprint!(self.rt; "\r\x1b[K");
            self.stands = false;
        }
    }

    // One call more.
    fn pass(&mut self) {
        self.calls = self.calls.saturating_add(1);
        if self.calls >= CALLS_BY_READING {
            self.calls = 0;
            self.show_if_due();
        }
    }

    fn show_if_due(&mut self) {
        let Ok(now) = Instant::now(&self.rt) else {
            return;
        };
        match self.written {
            Some(then) if now.duration_since(then) < Duration::from_millis(MILLISECONDS_SHOWN) => {}
            Some(_) => {
                self.written = Some(now);
                self.show();
            }
            None => self.written = Some(now),
        }
    }

    fn show(&mut self) {
        let counts = self.counts;
        let _ = eprint!(self.rt; "\r{counts}\x1b[K");
        self.stands = true;
    }
}
