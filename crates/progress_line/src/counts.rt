// What was done to an outside, in numbers.
use std::fmt;
use std::fmt::{Display, Formatter};

/// How many lines were said, how many of them tell of a death and how many of a recovery, how many
/// puts were answered, and the tick of the last one. Its text is one line; where no line was said
/// it tells the puts alone. A count stands still at its type's end.
#[derive(Clone, Copy)]
pub struct Counts {
    lines: u64,
    deaths: u64,
    recoveries: u64,
    puts: u64,
    clock: u64,
}

impl Counts {
    /// Nothing was done.
    pub fn none() -> Self {
        Counts {
            lines: 0,
            deaths: 0,
            recoveries: 0,
            puts: 0,
            clock: 0,
        }
    }

    /// With a line that was said.
    pub fn add_line(&mut self, line: &[u8]) {
        self.lines = self.lines.saturating_add(1);
        if line.starts_with(b"! dead ") {
            self.deaths = self.deaths.saturating_add(1);
        }
        if line.starts_with(b"! recovered ") {
            self.recoveries = self.recoveries.saturating_add(1);
        }
    }

    /// With a put at this tick.
    pub fn add_put(&mut self, now: u64) {
        self.puts = self.puts.saturating_add(1);
        self.clock = now;
    }
}

impl Display for Counts {
    fn fmt<W: fmt::Write>(&self, f: &mut Formatter<W>) -> fmt::Result {
        let Counts {
            lines,
            deaths,
            recoveries,
            puts,
            clock,
        } = *self;
        if lines > 0 {
            write!(
                f,
                "lines {lines}, deaths {deaths}, recoveries {recoveries}, "
            )?;
        }
        write!(f, "puts {puts}, clock {clock}")
    }
}
