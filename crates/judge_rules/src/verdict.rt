// What a verdict says.

/// For each of the three rules the number of the first line, from 1, at which it breaks, or `None` where it holds at every line.
#[derive(Clone, Copy, Debug, PartialEq, Eq)]
pub struct Verdict {
    /// The lines are a well-formed transcript of the script, the lines of the tree included.
    pub transcript: Option<usize>,
    /// Their history is legal.
    pub legal: Option<usize>,
    /// Each recovery kept what must be kept.
    pub kept: Option<usize>,
}

impl Verdict {
    /// All rules hold.
    pub const SOUND: Verdict = Verdict {
        transcript: None,
        legal: None,
        kept: None,
    };

    /// Whether all rules hold at every line.
    pub fn is_sound(&self) -> bool {
        self.transcript.is_none() && self.legal.is_none() && self.kept.is_none()
    }
}
