// What each status and each kind of a script's first fault says in words.
use frang_top::Status;
use std::test::Fail;

// A status by its code, its line and its number, and what its sentence is.
static ROWS: [(u8, u32, u64, &str); 24] = [
    (0, 0, 0, "all was done"),
    (
        1,
        1,
        1,
        "line 1: not UTF-8, or a word with a control character",
    ),
    (
        1,
        3,
        2,
        "line 3: an unknown word where a command must stand",
    ),
    (1, 4, 3, "line 4: a word is missing"),
    (1, 5, 4, "line 5: a word too many"),
    (1, 2, 5, "line 2: not a number, or out of range"),
    (1, 6, 6, "line 6: not a path"),
    (1, 7, 7, "line 7: not a server, which are 0 to 15"),
    (1, 65_537, 8, "line 65537: more than 65536 lines"),
    (1, 0, 9, "line 0: more than 1048576 bytes"),
    (
        1,
        9,
        10,
        "line 9: a text of more than 512 bytes, or a target of more than 384",
    ),
    (1, 10, 11, "line 10: a command after halt"),
    (1, 11, 12, "line 11: an unknown fault"),
    (2, 0, 0, "the words are no command; the commands are"),
    (3, 0, 0, "want of memory"),
    (4, 0, 0, "the script can't be read"),
    (4, 1, 0, "the image can't be read"),
    (5, 0, 7, "a line can't be said, after 7 lines"),
    (6, 8, 0, "image: its replayed disk stands for no tree"),
    (7, 0, 0, "a file can't be written"),
    (8, 0, 1_048_576, "the script has more than 1048576 bytes"),
    (8, 1, 536_870_912, "the image has more than 536870912 bytes"),
    (9, 0, 4_294_967_296, "the disk fails at sector 4294967296"),
    (10, 0, 0, "an unknown status"),
];

#[test]
fn statuses_are_told_in_words(rt: HostRuntime) -> Result<(), Fail> {
    for (code, line, at, words) in &ROWS {
        let status = Status {
            code: *code,
            line: *line,
            at: *at,
            sector: 0,
        };
        let sentence = status.sentence(rt.alloc())?;
        assert!(rt;
            sentence.as_str() == *words,
            "status {code} at {at}: {sentence}"
        );
    }
    Ok(())
}
