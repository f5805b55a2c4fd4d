// What is wrong, as a user reads it: the word of a line, and what of a command line is no command.
use crate::builders::words_in;
use error_words::{what_is_wrong, word_at_fault};
use std::test::Fail;

// A line that is refused, the kind of its fault, and the word at fault; empty where there is none.
static LINES: [(&str, u8, &str); 13] = [
    ("0 creat /a", 2, "creat"),
    ("mount", 2, "mount"),
    ("0 rename /a", 3, ""),
    ("0 mount now", 4, "now"),
    ("barrier 1", 4, "1"),
    ("0 truncate /a x1", 5, "x1"),
    ("0 read /a 0 5000", 5, "5000"),
    ("0 read /a x y", 5, "x"),
    ("0 fill /a 0 1 xx", 5, "xx"),
    ("tick 0", 5, "0"),
    ("0 create a//b", 6, "a//b"),
    ("0 link /a b", 6, "b"),
    ("16 sync", 7, "16"),
];

#[test]
fn the_word_at_fault_is_found(rt: HostRuntime) -> Result<(), Fail> {
    for (line, kind, wanted) in &LINES {
        let word = word_at_fault(rt.alloc(), line, *kind)?;
        assert!(rt; word.unwrap_or("") == *wanted, "{line}");
    }
    Ok(())
}

// Words that are no command, what is said of them, and the place of the command that they name, 6 where they name none.
static WORDS: [(&str, &str, usize); 41] = [
    ("", "a command is missing", 6),
    ("walk s", "walk: no command", 6),
    ("run", "SCRIPT is missing", 0),
    ("run s t", "a word too many: t", 0),
    ("run s --segments 65", "--segments 65: 1 to 64", 0),
    ("run s --segments=01", "--segments 01: 1 to 64", 0),
    ("run --segments", "--segments: its value is missing", 0),
    ("run s --order x", "--order x: 0 to 18446744073709551615", 0),
    (
        "run s --order 18446744073709551616",
        "--order 18446744073709551616: 0 to 18446744073709551615",
        0,
    ),
    ("run s --order 1 --order=1", "--order: given twice", 0),
    ("run s --help", "--help: no option of run", 0),
    ("run -- s --segments", "a word too many: --segments", 0),
    ("run s --image", "--image: its value is missing", 0),
    ("run s --image i --image=j", "--image: given twice", 0),
    (
        "run s --segments 2 --image i",
        "--segments: for a fresh disk, not with --image",
        0,
    ),
    (
        "run s --image=i --segments=2",
        "--segments: for a fresh disk, not with --image",
        0,
    ),
    ("run s --save f --save g", "--save: given twice", 0),
    (
        "run s --save -f",
        "--save: its value is missing, or is behind = where it begins with -",
        0,
    ),
    ("run s --board 0 --board-to b", "--board 0: 1 to 1000", 0),
    (
        "run s --board 1001 --board-to b",
        "--board 1001: 1 to 1000",
        0,
    ),
    (
        "run s --board 4294967296 --board-to b",
        "--board 4294967296: 1 to 1000",
        0,
    ),
    ("run s --board 3", "--board: only with --board-to", 0),
    ("run s --board-to b", "--board-to: only with --board", 0),
    (
        "run s --board 3 --board-to b --order 1",
        "--board: for a run on threads, not with --order",
        0,
    ),
    (
        "run s --order 1 --board 3 --board-to b",
        "--board: for a run on threads, not with --order",
        0,
    ),
    (
        "run s --board 3 --board-to b --save b",
        "--board-to: another file than --save",
        0,
    ),
    ("recover", "IMAGE is missing", 1),
    ("recover i --image j", "--image: no option of recover", 1),
    ("recover i --save", "--save: its value is missing", 1),
    ("tree i --save f", "--save: no option of tree", 2),
    ("log i", "SERVER is missing", 3),
    ("log i 256", "SERVER 256: 0 to 255", 3),
    ("fsck i j", "a word too many: j", 4),
    ("soak", "N is missing", 5),
    ("soak x", "N x: 0 to 18446744073709551615", 5),
    ("soak 07", "N 07: 0 to 18446744073709551615", 5),
    (
        "soak 18446744073709551616",
        "N 18446744073709551616: 0 to 18446744073709551615",
        5,
    ),
    ("soak 7 8", "a word too many: 8", 5),
    ("soak 7 --order 1", "--order: no option of soak", 5),
    ("soak 7 --save f", "--save: no option of soak", 5),
    ("soak --help", "--help: no option of soak", 5),
];

#[test]
fn words_that_are_no_command_are_told(rt: HostRuntime) -> Result<(), Fail> {
    for (line, wanted, place) in &WORDS {
        let words = words_in(rt.alloc(), line)?;
        let wrong = what_is_wrong(rt.alloc(), &words)?;
        assert!(rt;
            wrong.text.as_str() == *wanted && wrong.command.unwrap_or(6) == *place,
            "{line}"
        );
    }
    Ok(())
}
