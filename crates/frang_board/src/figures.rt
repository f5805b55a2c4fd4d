// The numbers of a board, and the refusal of those that go back.
ghost use Rattle.std.specs.Prelude.{◌≡◌};
ghost use Rattle.frang_board.specs.Figures.{is_behind, zeros};

use crossbeam_utils::atomic::seq_cell::Words;

/// How many lines were said, how many of them are answers, how many servers were told dead, and how many recovered.
#[derive(Debug, Clone, Copy, PartialEq, Eq)]
pub struct Figures {
    pub said: u64,
    pub answered: u64,
    pub dead: u64,
    pub recovered: u64,
}

impl Figures {
    // What a board shows where nothing was published.
    pub(crate) fn zeros() -> Figures
        ensures { result ≡ zeros }
    {
        Figures {
            said: 0,
            answered: 0,
            dead: 0,
            recovered: 0,
        }
    }

    // Whether one of the numbers is less than the last one.
    pub(crate) fn is_behind(&self, last: &Figures) -> bool
        ensures { result ≡ is_behind self.now last.now }
    {
        self.said < last.said
            || self.answered < last.answered
            || self.dead < last.dead
            || self.recovered < last.recovered
    }
}

impl Words<4> for Figures {
    ghost use Rattle.frang_board.specs.Figures.{words_of};

    ghost words = { words_of };

    fn to_words(self) -> [u64; 4] {
        [self.said, self.answered, self.dead, self.recovered]
    }

    fn from_words(bits: &[u64; 4]) -> Figures {
        Figures {
            said: bits[0],
            answered: bits[1],
            dead: bits[2],
            recovered: bits[3],
        }
    }
}

/// The figures were behind those last published, which the board still shows.
#[derive(Debug, Clone, Copy, PartialEq, Eq)]
pub struct Back {
    pub held: Figures,
}
