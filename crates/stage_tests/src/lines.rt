// Lines over small disks: a row has what is done, and how far the line is then.
use crate::acts::done;
use crate::work::Work;
use std::alloc::Global;
use std::process::Abort;
use std::test::Fail;
use test_tables::{has_rows, is_row, parted};

// The first segment has inode 5 free; blocks 4 to 6 are directories', and 8 holds bytes. The root has the file `f` of five bytes, the directory `d` with an empty file `g`, the link `l`
// to `d`, the empty directory `e`, and the link `o`. Of the second segment all is free.
const DISK: &str = "
k0 0:01 8:df 17:3f01
k1 0:01
i0 8:020001000100000005 32:04
i1 8:010001000100000005 32:08
i2 8:020001000100000001 32:05
i3 8:030001000000000001 128:'d
i4 8:010001
i5
i6 8:0200010001 32:06
i7 8:030001000000000001 128:'o
s4+24
s4 8:010000000101'f 80:020000000102'd 152:030000000103'l 224:060000000102'e 296:070000000103'o
s5 8:040000000101'g
s8 0:'bytes
";

// The root has the empty file `f`, the directory `d` without a block, and the link `l`. Inode 4 is free, and block 4 is the root's.
const BARE: &str = "
k0 0:01 8:0f 17:03
k1 0:01
i0 8:020001000100000003 32:04
i1 8:010001
i2 8:020001
i3 8:030001000000000001 128:'d
i4
i64
s4+8
s4 8:010000000101'f 80:020000000102'd 152:030000000103'l
";

// The same, and no inode of the first segment is free.
const FULL: &str = "
k0 0:01 8:ffffffffffffffff 17:03
k1 0:01
i0 8:020001000100000003 32:04
i2 8:020001
i64
s4+8
s4 8:010000000101'f 80:020000000102'd 152:030000000103'l
";

// A new name: the whole directory is read, a segment joins, its bitmap is read, and the free inode; then what changes is locked sole.
const CREATED: &str = "
sync                                 | -
create /n                            | asks n0
refuse                               | not refuse
ask                                  | fetches i0 under n0
fetch                                | fetches s4.0 under n0
fetch                                | fetches s4.1 under n0
fetch; fetch; fetch; fetch           | fetches s4.5 under n0
fetch; fetch; fetch                  | grows, again
again grown s0! n0 saw 9             | asks s0!
ask                                  | bitmaps k0 under s0
fetch                                | fetches i5 under s0
fetch                                | grows, again
again grown s0! n0! n5! saw 11       | asks n0!
ask                                  | asks n5!
ask                                  | finished, may commit
again                                | not again
commit ok                            | -
";

// A lock that another server holds is waited for. Without its plan a line stands still.
const WAITED: &str = "
other n0!; stat /f                   | asks n0
ask                                  | asks n0, waits
leave n0                             | asks n0
ask; fetch; fetch                    | grows, again
again grown n0 n1 saw 2              | asks n1
ask                                  | fetches i1 under n1
fetch                                | finished, may commit
forget                               | stopped
keep                                 | finished, may commit
commit file 5 1                      | -
";

// The root's lock is given up, and its inode has changed when it is read again.
const MOVED: &str = "
stat /f; ask; fetch; fetch           | grows, again
again grown n0 n1 saw 2; ask         | fetches i1 under n1
give n0                              | asks n0
lay i0 0:02 8:020001000100000005 32:04; ask | fetches i0 under n0
fetch                                | moved, again
again anew n0 saw 0                  | fetches s4.0 under n0
fetch                                | grows, again
again grown n0 n1 saw 2              | fetches i1 under n1
fetch                                | finished, may commit
commit file 5 1                      | -
";

// While a sector that was seen isn't cached the line neither grows nor ends.
const STOPPED: &str = "
stat /f; ask; fetch; fetch           | grows, again
see i6                               | stopped
cache i6 n0                          | grows, again
again grown n0 n1 saw 3; ask; fetch  | finished, may commit
see i7                               | stopped
again                                | not again
cache i7 n0                          | finished, may commit
commit file 5 1                      | -
";

// The directory's first block is cleared before it is taken, and the line waits for its zeros.
const CLEARED: &str = "
create /d/x; ask; fetch; fetch       | grows, again
again grown n0 n2 saw 2              | asks n2
ask                                  | fetches i2 under n2
fetch                                | grows, again
again grown s0! n0 n2 saw 3; ask     | bitmaps k0 under s0
fetch                                | fetches i4 under s0
fetch                                | grows, again
again grown s0! n0 n2! n4! saw 5     | asks n2!
ask; ask                             | clears 0
clear                                | finished
put s0 s0.1 s0.2 s0.3 s0.4 s0.5 s0.6 | finished
put s0.7                             | finished, may commit
commit ok                            | -
";

// The first segment has no free inode, so the second joins too; both bitmaps lack where the first segment was given up meanwhile.
const SEGMENTS: &str = "
create /d/x; ask; fetch; fetch       | grows, again
again grown n0 n2 saw 2; ask; fetch  | grows, again
again grown s0! n0 n2 saw 3; ask     | bitmaps k0 under s0
fetch                                | grows, again
again grown s0! s1! n0 n2 saw 4      | asks s1!
ask                                  | bitmaps k1 under s1
give s0                              | asks s0!
ask                                  | bitmaps k0 under s0 k1 under s1
fetch                                | bitmaps k1 under s1
fetch                                | fetches i64 under s1
fetch                                | grows, again
again grown s0! s1! n0 n2! n64! saw 6; ask; ask | clears 0
";

// One number of the log is free, and the first line takes it. The second waits until what the oldest records name is in place, and they are given up.
const ROOM: &str = "
write /f 5 !; ask; fetch; fetch      | grows, again
again grown n0 n1 saw 2; ask; fetch  | fetches s8.0 under n1
fetch                                | grows, again
again grown n0 n1! saw 3; ask        | finished, may commit
commit ok; log                       | -
write /f 6 !; again grown n0 n1 saw 2; again grown n0 n1! saw 3 | finished, no room: i1 i2
put i1                               | finished, no room: i1 i2, again
again reclaim                        | finished, may commit
commit ok                            | -
";

// No disk has segment 64.
const REFUSED: &str = "
stat /f; ask                         | fetches i0 under n0
join s64!                            | asks s64!
refuse                               | asks s64!
";

// Inodes 1 to 3, each with the number of its records in a log of which one number is free: the first record names the first, the other oldest ones the second.
static RECORDS: [(u64, u32); 3] = [
    (10_737_418_241, 1),
    (10_737_418_242, 63),
    (10_737_418_243, 127),
];

// A disk, whether the log has these records, and the rows.
type Case = (&'static str, bool, &'static str);

static CASES: [Case; 8] = [
    (DISK, false, CREATED),
    (DISK, false, WAITED),
    (DISK, false, MOVED),
    (DISK, false, STOPPED),
    (BARE, false, CLEARED),
    (FULL, false, SEGMENTS),
    (DISK, true, ROOM),
    (DISK, false, REFUSED),
];

// The lines of a case go as its rows have them.
fn expect(rt: &impl Abort, alloc: Global, case: Case) -> Result<(), Fail> {
    let (disk, is_logged, rows) = case;
    let mut work = Work::new(alloc, disk, records_where(is_logged))?;
    expect_rows(rt, &mut work, rows)
}

fn records_where(is_logged: bool) -> &'static [(u64, u32)] {
    if is_logged { &RECORDS } else { &[] }
}

fn expect_rows(rt: &impl Abort, work: &mut Work, rows: &str) -> Result<(), Fail> {
    assert!(rt; has_rows(rows));
    for row in rows.lines() {
        if is_row(row) {
            expect_row(rt, work, row)?;
        }
    }
    Ok(())
}

fn expect_row(rt: &impl Abort, work: &mut Work, row: &str) -> Result<(), Fail> {
    let (acts, then) = parted(row);
    let text = done(work, acts)?;
    assert!(rt; text.as_str() == then, "{row}: {text}");
    Ok(())
}

#[test]
fn lines_go_as_worked_out_by_hand(rt: HostRuntime) -> Result<(), Fail> {
    for case in &CASES {
        expect(&rt, rt.alloc(), *case)?;
    }
    Ok(())
}
