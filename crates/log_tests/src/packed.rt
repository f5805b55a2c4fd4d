// Logs of packed sectors, also beside sectors of an older program: their ends and records were worked out by hand.
use crate::pieces::expect;
use std::test::Fail;

// Frames in one sector and over the border of two.
const WHOLE: &str = "
one frame                       | frames 256 7 100                                    | 256: 7
two frames                      | frames 256 7 100 9 100                              | 256: 7 9
descending                      | frames 256 9 100 7 100                              | 256: 9 7
operation 0                     | frames 256 0 100                                    | 256: 0
100, 200, 300                   | frames 256 1 100 2 200 3 300                        | 257: 1 2 3
100, 200, 300 without the last  | frames 256 1 100 2 200 3 300, lacks 257             | 256: 1 2
100, 200, 300 without the first | frames 256 1 100 2 200 3 300, lacks 256             | 255
four in a sector                | frames 256 1 100 2 100 3 100 4 100                  | 256: 1 2 3 4
a fifth over its border         | frames 256 1 100 2 100 3 100 4 100 5 100            | 257: 1 2 3 4 5
a fifth that is cut             | frames 256 1 100 2 100 3 100 4 100 5 100, lacks 257 | 256: 1 2 3 4
";

// Frames over several sectors, also cut.
const LONG: &str = "
over three sectors                   | frames 256 5 1000                      | 258: 5
over three, cut at the third         | frames 256 5 1000, lacks 258           | 257
over three, cut at the second        | frames 256 5 1000, lacks 257           | 256
over three, cut at the first         | frames 256 5 1000, lacks 256           | 255
over three and one more              | frames 256 5 1000 6 100                | 258: 5 6
over three, its middle empty         | frames 256 5 1000 6 100, empty 257 257 | 258: 6
ends with its sector                 | frames 256 1 478 2 100                 | 257: 1 2
ends with its sector alone           | frames 256 1 478                       | 256: 1
ends with its sector, the next lacks | frames 256 1 478 2 100, lacks 257      | 256: 1
ends with its second sector          | frames 256 1 966 2 100                 | 258: 1 2
a head over a border                 | frames 256 1 473 2 100                 | 257: 1 2
a head that is cut                   | frames 256 1 473 2 100, lacks 257      | 256: 1
the longest body                     | frames 256 3 4096                      | 264: 3
over ten sectors                     | frames 256 1 477 2 4096                | 265: 1 2
over ten, cut at the last            | frames 256 1 477 2 4096, lacks 265     | 264: 1
over ten, cut at the fifth           | frames 256 1 477 2 4096, lacks 260     | 259: 1
";

// Sectors that are closed early, and what cuts a frame.
const FOLLOWED: &str = "
closed early                     | frames 256 1 100, frames 257 2 100            | 257: 1 2
closed early, the first lacks    | frames 256 1 100, frames 257 2 100, lacks 256 | 255
256 and 258                      | frames 256 1 100, frames 258 3 100            | 256: 1
a sector that isn't full goes on | bytes 256 0 60, bytes 257 65535 50            | 257: 7
and is cut                       | bytes 256 0 60, bytes 257 0 50                | 257
behind one of the older form     | record 256 7 2, frames 258 8 100              | 258: 7 8
before one of the older form     | frames 256 7 100, record 257 8 2              | 258: 7 8
cut by one of the older form     | frames 256 1 600, record 257 2 1              | 257: 2
the older form, cut by a frame   | record 256 7 3, frames 257 8 100              | 258: 8
cut by an empty one              | frames 256 1 600, empty 257 257               | 257
cut by a beginning               | frames 256 1 600, frames 257 2 100            | 257: 2
its beginning is empty           | frames 256 1 600 2 100, empty 256 256         | 257: 2
its beginning is another's       | frames 256 1 600 2 100, frames 256 3 100      | 257: 3 2
";

// Heads that are none, what is too old, and sessions.
const ROUNDS: &str = "
a length of 0                 | head 256 0, frames 257 3 100                                           | 257: 3
a length of 4,097             | head 256 4097                                                          | 256
a length that is cut          | head 256 4096                                                          | 256
no record's body              | head 256 3                                                             | 256: 8
192 behind it                 | frames 256 5 100, empty 257 448                                        | 448
191 behind it                 | frames 256 5 100, empty 257 447                                        | 447: 5
its beginning is too old      | frames 256 5 600 6 100, empty 258 448                                  | 448: 6
its beginning is just read    | frames 256 5 600 6 100, empty 258 447                                  | 447: 5 6
round the end                 | empty 256 510, frames 511 7 600                                        | 512: 7
in a second round             | empty 256 511, frames 512 1 100 2 100 3 100 4 100 5 100, empty 514 560 | 560: 1 2 3 4 5
torn and not sealed           | frames 256 1 100 2 600, empty 258 320, lacks 257                       | 256: 1
257 too                       | frames 256 1 100, frames 258 3 100, frames 257 2 100                   | 258: 1 2 3
one of the older form between | frames 256 1 600, record 258 2 1, frames 259 3 100                     | 259: 1 2 3
two sessions                  | frames 256 1 100, empty 257 320, frames 321 2 100                      | 321: 1 2
two sessions, the first torn  | frames 256 1 100 2 600, empty 257 320, frames 321 3 100                | 321: 1 3
";

#[test]
fn packed_logs_are_read_as_worked_out_by_hand(rt: HostRuntime) -> Result<(), Fail> {
    expect(&rt, rt.alloc(), WHOLE)?;
    expect(&rt, rt.alloc(), LONG)?;
    expect(&rt, rt.alloc(), FOLLOWED)?;
    expect(&rt, rt.alloc(), ROUNDS)
}
