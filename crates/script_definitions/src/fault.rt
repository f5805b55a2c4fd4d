// Why a script is none.
ghost use Rattle.std.specs.Prelude.{◌≡◌};
ghost use Rattle.script_definitions.specs.ScriptFaults.{kind_of};

/// Why a line is bad, or a script is too long.
#[derive(Clone, Copy, Debug, PartialEq, Eq)]
pub enum LineFault {
    /// It isn't UTF-8, or a word has a byte below 0x20 or the delete byte.
    NotText,
    UnknownWord,
    MissingWord,
    ExtraWord,
    /// A number or a byte that is none, or out of its range.
    BadNumber,
    BadPath,
    /// A first word of digits that is no server.
    BadServer,
    /// More than 65,536 lines.
    TooManyLines,
    /// More than 1,048,576 bytes.
    ScriptTooLong,
    /// A text of more than 512 bytes, or a target of more than 384.
    TextTooLong,
    /// A command after `halt`.
    AfterHalt,
}

impl LineFault {
    /// The number of the kind of this fault, 1 to 11.
    pub fn kind(self) -> u8
        ensures { result ≡ kind_of self }
    {
        match self {
            LineFault::NotText => 1,
            LineFault::UnknownWord => 2,
            LineFault::MissingWord => 3,
            LineFault::ExtraWord => 4,
            LineFault::BadNumber => 5,
            LineFault::BadPath => 6,
            LineFault::BadServer => 7,
            LineFault::TooManyLines => 8,
            LineFault::ScriptTooLong => 9,
            LineFault::TextTooLong => 10,
            LineFault::AfterHalt => 11,
        }
    }
}

/// The first bad line of a script, counted from 1, with the kind of its first fault; line 0 where the script is too long.
#[derive(Clone, Copy, Debug, PartialEq, Eq)]
pub struct ScriptFault {
    pub line: u32,
    pub kind: u8,
}
