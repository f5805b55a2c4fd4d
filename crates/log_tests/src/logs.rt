// Logs of an older program, whose records have sectors of their own: their ends and records were worked out by hand.
use crate::pieces::{expect, sealed};
use std::test::Fail;

// Empty sectors alone, and where a log ends.
const EMPTY: &str = "
zeros            |                              | 255
one more         | empty 256 256                | 256
one lacks        | empty 256 256, empty 258 258 | 256
two lack         | empty 258 258                | 255
64 more          | empty 256 319                | 319
192 more         | empty 256 447                | 447
all slots        | empty 256 511                | 511
round the end    | empty 256 512                | 512
a second round   | empty 256 800                | 800
far on           | empty 1000064 1000255        | 1000255
191 numbers      | empty 1000064 1000254        | 0
62 behind a gap  | empty 256 300, empty 302 363 | 300
up to 64 further | empty 256 300, empty 302 364 | 300
up to 65 further | empty 256 300, empty 302 365 | 0
";

// Slots that hold no sectors.
const GARBAGE: &str = "
garbage                    | garbage 0 255   | 0
garbage in slot 63         | garbage 63 63   | 255
garbage in slot 64         | garbage 64 64   | 0
garbage in slot 191        | garbage 191 191 | 0
garbage in slot 192        | garbage 192 192 | 191
garbage in slot 255        | garbage 255 255 | 254
a low number               | placed 70 70    | 0
a wrong slot               | placed 256 5    | 255
a wrong slot among the 192 | placed 256 100  | 0
a wrong slot behind them   | placed 256 200  | 199
";

// Records with all their parts, and without one.
const WHOLE: &str = "
one record                 | record 256 7 1                               | 256: 7
two                        | record 256 7 1, record 257 9 1               | 257: 7 9
descending                 | record 256 9 1, record 257 7 1               | 257: 9 7
one twice                  | record 256 7 1, record 257 7 1               | 257: 7 7
between empty ones         | empty 256 299, record 300 7 1, empty 301 301 | 301: 7
two parts                  | record 256 7 2                               | 257: 7
nine parts                 | record 256 7 9, record 265 8 1               | 265: 7 8
round the end, two parts   | empty 256 510, record 511 7 2                | 512: 7
round the end, nine parts  | empty 256 506, record 507 7 9                | 515: 7
a record in a second round | empty 256 511, record 512 7 1, empty 513 560 | 560: 7
without its last           | part 256 7 0 3, part 257 7 1 3               | 257
without its middle         | part 256 7 0 3, part 258 7 2 3               | 256
without its first          | part 257 7 1 3, part 258 7 2 3               | 255
";

// Records of which a part is another, too old or torn, and sessions.
const BROKEN: &str = "
its last is empty       | part 256 7 0 2, empty 257 257                                  | 257
its middle is empty     | record 256 7 3, empty 257 257                                  | 258
its first is empty      | record 256 7 3, empty 256 256                                  | 258
its middle is no sector | record 256 7 3, garbage 1 1                                    | 256
its last is another's   | part 256 7 0 2, record 257 9 1                                 | 257: 9
parts of two            | part 256 7 0 2, part 257 9 1 2                                 | 257
parts of 2 and of 3     | part 256 7 0 2, part 257 7 1 3                                 | 257
a second part twice     | part 256 7 0 3, part 257 7 1 3, part 258 7 1 3                 | 258
a first part twice      | part 256 7 0 2, record 257 7 2                                 | 258: 7
no body                 | record 256 7 1, no_body 257 8, record 258 9 1                  | 258: 7 9
192 behind a record     | record 256 5 1, empty 257 448                                  | 448
191 behind a record     | record 256 5 1, empty 257 447                                  | 447: 5
a first part too old    | empty 256 256, record 257 7 2, empty 259 449                   | 449
a first part just read  | empty 256 256, record 257 7 2, empty 259 448                   | 448: 7
a torn end              | record 256 7 2, part 258 8 0 2, record 260 9 1                 | 258: 7
sealed                  | record 256 7 2, part 258 8 0 2, record 260 9 1, empty 259 322  | 322: 7
sealed but for one      | record 256 7 2, part 258 8 0 2, empty 260 322                  | 258: 7
a second session        | record 256 7 2, part 258 8 0 2, empty 259 322, record 323 11 2 | 324: 7 11
";

#[test]
fn logs_are_read_as_worked_out_by_hand(rt: HostRuntime) -> Result<(), Fail> {
    expect(&rt, rt.alloc(), EMPTY)?;
    expect(&rt, rt.alloc(), GARBAGE)?;
    expect(&rt, rt.alloc(), WHOLE)?;
    expect(&rt, rt.alloc(), BROKEN)
}

// Logs, and whether they are sealed: no slot has a number above the end.
static SEALED: [(&str, bool); 4] = [
    ("", true),
    ("empty 256 300", true),
    ("record 256 7 2, part 258 8 0 2, record 260 9 1", false),
    (
        "record 256 7 2, part 258 8 0 2, record 260 9 1, empty 259 322",
        true,
    ),
];

#[test]
fn a_log_is_sealed_where_nothing_stands_above_its_end(rt: HostRuntime) -> Result<(), Fail> {
    for (pieces, is_so) in &SEALED {
        assert!(rt; sealed(rt.alloc(), pieces)? == Some(*is_so), "{pieces}");
    }
    Ok(())
}
