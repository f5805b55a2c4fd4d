// Looks over a small disk whose sectors were worked out by hand, and what is asked for where a sector isn't cached.
ghost use Rattle.op_look.specs.Looks.{IsLook};

use crate::expected::expect_told;
use frang_base::{NoMemory, Op};
use meta_version::Sectors;
use op_look::plan_look;
use plan_disks::{CachedDisk, leave_out_but, look_op, plan_told, sectors_of};
use std::alloc::Global;
use std::process::Abort;
use std::test::Fail;
use test_tables::{columns, has_rows, is_row};
use usable_sectors::Usable;

// Inodes 0 to 3, 5, and 7 to 9, blocks 0 and 1. The root has ten entries in block 0. The file /a, which is /B and /d/x too, has five bytes in
// block 2; it was written at tick 67,305,985 of run 134,678,021. The file /u was never written, and /w in the last tick of the last run. The
// directory /d has one entry in block 1, and the link /l leads to `a/b`. The inodes of the file /m and of the directory /n aren't cached, and
// that of /o is free. The entry of /p tells a file, but leads to the link; that of /q tells a directory, but leads to /a.
const DISK: &str = "
i0 0:09 8:02000100010000000b
i1 8:010003000100000005 32:02 100:0102030405060708
i2 8:020001000100000001 32:01
i3 8:030001000000000003 128:'a/b
i5 8:010001
i7 8:010001 100:ffffffffffffffff
i8 0:03
s0+16
s0 0:04 8:020000000102'd 80:050000000101'u 152:010000000101'a 296:070000000101'w 440:030000000103'l
s0.1 8:010000000101'B 80:080000000101'o 152:030000000101'p 224:040000000101'm 296:060000000102'n 368:010000000102'q
s1 80:010000000101'x
";

// Each look is answered as worked out: a row has a look, the sector that isn't cached, and what is told.
fn expect(rt: &impl Abort, alloc: Global, rows: &str) -> Result<(), Fail> {
    assert!(rt; has_rows(rows));
    for row in rows.lines() {
        if is_row(row) {
            let (line, setting, wanted) = columns(row);
            let text = told(alloc, line, setting)?;
            expect_told(rt, row, text.as_str(), wanted);
        }
    }
    Ok(())
}

fn told(alloc: Global, line: &str, setting: &str) -> Result<String, NoMemory> {
    let mut sectors = sectors_of(alloc, DISK)?;
    leave_out_but(&mut sectors, setting, "whole")?;
    told_over(alloc, line, &sectors)
}

/// What is told of a look over the cached sectors.
pub(crate) fn told_over(alloc: Global, line: &str, sectors: &Sectors) -> Result<String, NoMemory> {
    let op = look_op(alloc, line)?;
    let cached = CachedDisk::of(alloc, sectors)?;
    let usable = cached.usable();
    told_of(alloc, &op, &usable)
}

fn told_of(alloc: Global, op: &Op, sectors: &Usable) -> Result<String, NoMemory>
    requires { IsLook op.now }
{
    let plan = plan_look(alloc, op, sectors)?;
    plan_told(alloc, &plan)
}

const LOOKS: &str = "
stat /      | whole | dir 11
stat /a     | whole | file 5 3
stat /B     | whole | file 5 3
stat /d     | whole | dir 1
stat /l     | whole | link 3
stat /d/x   | whole | file 5 3
stat /x     | whole | noent
stat /x/y   | whole | noent
stat /d/y   | whole | noent
stat /a/x   | whole | notdir
stat /l/x   | whole | notdir
stat /m     | whole | needs 10737418244
stat /m/x   | whole | notdir
stat /n/x   | whole | needs 10737418246
list /      | whole | names B a d l m n o p q u w
list /d     | whole | names x
list /a     | whole | notdir
list /m     | whole | notdir
list /n     | whole | needs 10737418246
list /x     | whole | noent
readlink /l | whole | target a/b
readlink /a | whole | inval
readlink /n | whole | inval
readlink /  | whole | inval
";

#[test]
fn looks_at_a_small_disk(rt: HostRuntime) -> Result<(), Fail> {
    expect(&rt, rt.alloc(), LOOKS)
}

const TIMES: &str = "
time /a   | whole | time 134678021.67305985
time /B   | whole | time 134678021.67305985
time /d/x | whole | time 134678021.67305985
time /u   | whole | time 0.0
time /w   | whole | time 4294967295.4294967295
time /    | whole | isdir
time /d   | whole | isdir
time /l   | whole | inval
time /x   | whole | noent
time /d/y | whole | noent
time /x/a | whole | noent
time /a/b | whole | notdir
time /l/b | whole | notdir
time /m   | whole | needs 10737418244
time /n   | whole | needs 10737418246
# What the inode is counts, not what the entry tells; a free one is nothing.
time /o   | whole | noent
time /p   | whole | inval
time /q   | whole | time 134678021.67305985
";

#[test]
fn files_have_times(rt: HostRuntime) -> Result<(), Fail> {
    expect(&rt, rt.alloc(), TIMES)
}

const ASKED_FOR: &str = "
stat /d/x | -s1.7 | file 5 3
stat /d/y | -s1.7 | needs 12884901903
list /d   | -s1.7 | needs 12884901903
time /d/x | -s1.7 | time 134678021.67305985
time /d/y | -s1.7 | needs 12884901903
time /a   | -i1   | needs 10737418241
time /d   | -i2   | needs 10737418242
time /l   | -i3   | needs 10737418243
time /    | -i0   | needs 10737418240
time /a   | -s0   | needs 12884901888
";

#[test]
fn a_sector_that_is_not_cached_is_asked_for(rt: HostRuntime) -> Result<(), Fail> {
    expect(&rt, rt.alloc(), ASKED_FOR)
}
