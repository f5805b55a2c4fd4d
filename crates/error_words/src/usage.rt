// What each command takes.
use command_words::READS_MAX;
use frang_base::limits::SEGMENTS_MAX;
use script_definitions::number_within;

// What a word or the value of an option may be.
#[derive(Clone, Copy, PartialEq, Eq)]
pub enum Kind {
    Name,
    Segments,
    Wide,
    Log,
    Reads,
}

/// A word that a command takes, or the value of an option: its name, what it may be, and that in words.
pub struct Place {
    pub name: &'static str,
    pub kind: Kind,
    pub value: &'static str,
}

// Whether a word is a number of 64 bits without zeros before it.
fn is_wide(word: &str) -> bool {
    let has_digits = word.as_bytes().iter().all(u8::is_ascii_digit);
    has_digits && (word == "0" || !word.starts_with('0')) && word.parse::<u64>().is_ok()
}

impl Place {
    /// Whether it takes this word.
    pub fn takes(&self, word: &str) -> bool {
        match self.kind {
            Kind::Name => true,
            Kind::Segments => number_within(word.as_bytes(), 1, SEGMENTS_MAX).is_some(),
            Kind::Wide => is_wide(word),
            Kind::Log => number_within(word.as_bytes(), 0, 255).is_some(),
            Kind::Reads => number_within(word.as_bytes(), 1, READS_MAX).is_some(),
        }
    }
}

/// How many options there are.
pub const OPTIONS: usize = 6;

/// An option, its number among all, and that of the option that it isn't given with, where there is one, and of the one that it isn't given without, each with what is said of both; and that of the
/// option whose file is another than its own.
pub struct OptionForm {
    pub place: Place,
    pub number: usize,
    pub apart: Option<(usize, &'static str)>,
    pub needs: Option<(usize, &'static str)>,
    pub other_file: Option<(usize, &'static str)>,
}

/// A command: its name, the words that it takes, and its options.
pub struct Usage {
    pub name: &'static str,
    pub places: &'static [Place],
    pub options: &'static [OptionForm],
}

impl Usage {
    /// The option of this name.
    pub fn option(&self, name: &str) -> Option<&'static OptionForm> {
        self.options.iter().find(|form| form.place.name == name)
    }
}

const IMAGE: Place = Place {
    name: "IMAGE",
    kind: Kind::Name,
    value: "a file's name",
};

const SCRIPT: Place = Place {
    name: "SCRIPT",
    kind: Kind::Name,
    value: "a file's name",
};

const SERVER: Place = Place {
    name: "SERVER",
    kind: Kind::Log,
    value: "0 to 255",
};

const NUMBER: Place = Place {
    name: "N",
    kind: Kind::Wide,
    value: "0 to 18446744073709551615",
};

const FRESH_ALONE: &str = "--segments: for a fresh disk, not with --image";

const SEGMENTS: OptionForm = OptionForm {
    place: Place {
        name: "--segments",
        kind: Kind::Segments,
        value: "1 to 64",
    },
    number: 0,
    apart: Some((1, FRESH_ALONE)),
    needs: None,
    other_file: None,
};

const FROM_IMAGE: OptionForm = OptionForm {
    place: Place {
        name: "--image",
        kind: Kind::Name,
        value: "a file's name",
    },
    number: 1,
    apart: Some((0, FRESH_ALONE)),
    needs: None,
    other_file: None,
};

const SAVE: OptionForm = OptionForm {
    place: Place {
        name: "--save",
        kind: Kind::Name,
        value: "a file's name",
    },
    number: 2,
    apart: None,
    needs: None,
    other_file: None,
};

const ORDER: OptionForm = OptionForm {
    place: Place {
        name: "--order",
        kind: Kind::Wide,
        value: "0 to 18446744073709551615",
    },
    number: 3,
    apart: Some((4, UNORDERED)),
    needs: None,
    other_file: None,
};

const UNORDERED: &str = "--board: for a run on threads, not with --order";

const BOARD: OptionForm = OptionForm {
    place: Place {
        name: "--board",
        kind: Kind::Reads,
        value: "1 to 1000",
    },
    number: 4,
    apart: Some((3, UNORDERED)),
    needs: Some((5, "--board: only with --board-to")),
    other_file: None,
};

const BOARD_TO: OptionForm = OptionForm {
    place: Place {
        name: "--board-to",
        kind: Kind::Name,
        value: "a file's name",
    },
    number: 5,
    apart: None,
    needs: Some((4, "--board-to: only with --board")),
    other_file: Some((2, "--board-to: another file than --save")),
};

/// The commands, in the order in which the program tells of them.
pub static USAGES: [Usage; 6] = [
    Usage {
        name: "run",
        places: &[SCRIPT],
        options: &[FROM_IMAGE, SAVE, ORDER, SEGMENTS, BOARD, BOARD_TO],
    },
    Usage {
        name: "recover",
        places: &[IMAGE],
        options: &[SAVE],
    },
    Usage {
        name: "tree",
        places: &[IMAGE],
        options: &[],
    },
    Usage {
        name: "log",
        places: &[IMAGE, SERVER],
        options: &[],
    },
    Usage {
        name: "fsck",
        places: &[IMAGE],
        options: &[],
    },
    Usage {
        name: "soak",
        places: &[NUMBER],
        options: &[],
    },
];
