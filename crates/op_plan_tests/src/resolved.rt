// Where paths lead once links are followed, over a small disk whose sectors were worked out by hand, and which sector is asked for where one
// isn't cached.
use crate::expected::expect_told;
use frang_base::{NoMemory, Path};
use meta_version::Sectors;
use namei::{Resolved, resolve};
use plan_disks::{CachedDisk, leave_out_but, path_of, sectors_of};
use std::alloc::Global;
use std::fmt::Write;
use std::process::Abort;
use std::test::Fail;
use test_tables::{columns, has_rows, has_word, is_row};

// The root in block 0, with the directory /d, the file /f and links. /d in block 1 has the file `k`, the directory `w` and the links `m`, `n`
// and `v`; /d/w in block 2 has the file `z` and the link `y`. Each inode of a link has its target. The links /1 to /9 are a chain, of which /1
// leads to /f. /A has 32 names and /B 33, the name of /C has 64 bytes and that of /D 65.
const DISK: &str = "
i0 8:02000100010000001c
i1 8:020001000100000005 32:01
i2 8:010001
i3 8:010001
i4 8:020001000100000002 32:02
i5 8:010001
i6 8:030001000000000002 128:'/f
i7 8:030001000000000001 128:'f
i8 8:030001000000000001 128:'d
i9 8:030001000000000002 128:'/d
i10 8:030001000000000003 128:'d/k
i11 8:030001000000000004 128:'/d/x
i12 8:030001000000000004 128:'/x/y
i13 8:030001000000000001 128:'o
i14 8:030001000000000004 128:'d//k
i15 8:030001000000000004 128:'../f
i16 8:030001000000000001 128:'/
i17 8:030001000000000002 128:'f/
i18 8:030001000000000004 128:'/f/x
i19 8:030001000000000002 128:'/f
i20 8:030001000000000001 128:'1
i21 8:030001000000000001 128:'2
i22 8:030001000000000001 128:'3
i23 8:030001000000000001 128:'4
i24 8:030001000000000001 128:'5
i25 8:030001000000000001 128:'6
i26 8:030001000000000001 128:'7
i27 8:030001000000000001 128:'8
i28 8:030001000000000001 128:'k
i29 8:030001000000000002 128:'/f
i30 8:030001000000000003 128:'w/z
i31 8:030001000000000002 128:'/e
i32 8:03000100000000003f 128:'f/f/f/f/f/f/f/f/f/f/f/f/f/f/f/f/f/f/f/f/f/f/f/f/f/f/f/f/f/f/f/f
i33 8:030001000000000041 128:'f/f/f/f/f/f/f/f/f/f/f/f/f/f/f/f/f/f/f/f/f/f/f/f/f/f/f/f/f/f/f/f/f
i34 8:030001000000000040 128:'nnnnnnnnnnnnnnnnnnnnnnnnnnnnnnnnnnnnnnnnnnnnnnnnnnnnnnnnnnnnnnnn
i35 8:030001000000000041 128:'nnnnnnnnnnnnnnnnnnnnnnnnnnnnnnnnnnnnnnnnnnnnnnnnnnnnnnnnnnnnnnnnn
s0+24
s0 8:010000000102'd 80:020000000101'f 152:060000000103'a 224:070000000103'b 296:080000000103'e 368:090000000103'g 440:0a0000000103'h
s0.1 8:0b0000000103'i 80:0c0000000103'j 152:0d0000000103'o 224:0e0000000103'p 296:0f0000000103'q 368:100000000103'r 440:110000000103's
s0.2 8:120000000103't 80:130000000103'1 152:140000000103'2 224:150000000103'3 296:160000000103'4 368:170000000103'5 440:180000000103'6
s0.3 8:190000000103'7 80:1a0000000103'8 152:1b0000000103'9 224:200000000103'A 296:210000000103'B 368:220000000103'C 440:230000000103'D
s1 8:030000000101'k 80:1c0000000103'm 152:1d0000000103'n 224:1e0000000103'v 296:040000000102'w
s2 8:050000000101'z 80:1f0000000103'y
";

// Each path leads where it was worked out: a row has a path, whether its last name is followed or kept with the sector that isn't cached, and where
// it leads.
fn expect(rt: &impl Abort, alloc: Global, rows: &str) -> Result<(), Fail> {
    assert!(rt; has_rows(rows));
    for row in rows.lines() {
        if is_row(row) {
            let (path, setting, wanted) = columns(row);
            let text = told(alloc, path, setting)?;
            expect_told(rt, row, text.as_str(), wanted);
        }
    }
    Ok(())
}

fn told(alloc: Global, path: &str, setting: &str) -> Result<String, NoMemory> {
    let mut sectors = sectors_of(alloc, DISK)?;
    leave_out_but(&mut sectors, setting, "followed kept")?;
    told_over(alloc, path, setting, &sectors)
}

// Where a path leads over the cached sectors.
fn told_over(
    alloc: Global,
    path: &str,
    setting: &str,
    sectors: &Sectors,
) -> Result<String, NoMemory> {
    let path = path_of(alloc, path)?;
    let is_followed = has_word(setting, "followed");
    let cached = CachedDisk::of(alloc, sectors)?;
    let usable = cached.usable();
    resolved_told(alloc, &resolve(alloc, &path, is_followed, &usable, 0)?)
}

fn resolved_told(alloc: Global, resolved: &Resolved) -> Result<String, NoMemory> {
    let mut text = String::new(alloc);
    add_resolved(&mut text, resolved)?;
    Ok(text)
}

fn add_resolved(text: &mut String, resolved: &Resolved) -> Result<(), NoMemory> {
    match resolved {
        Resolved::Need(sector) => write!(text, "needs {}", sector.0)?,
        Resolved::At(path) => add_path(text, path)?,
        Resolved::NoEnt => write!(text, "noent")?,
        Resolved::NotDir => write!(text, "notdir")?,
        Resolved::Loop => write!(text, "loop")?,
    }
    Ok(())
}

fn add_path(text: &mut String, path: &Path) -> Result<(), NoMemory> {
    for name in path.as_slice() {
        text.push('/')?;
        for byte in name.as_slice() {
            text.push(char::from(*byte))?;
        }
    }
    Ok(())
}

// `/` is told as an empty text.
const LED: &str = "
# No link.
/        | followed |
/f       | followed | /f
/d       | followed | /d
/d/k     | followed | /d/k
/d/w/z   | kept     | /d/w/z
/x       | followed | /x
/d/x     | kept     | /d/x
/x/k     | followed | noent
/d/x/k   | kept     | noent
/f/k     | followed | notdir
/d/k/x   | kept     | notdir
# To a file, from the root and from the link's directory.
/a       | followed | /f
/a       | kept     | /a
/b       | followed | /f
/b       | kept     | /b
/h       | followed | /d/k
/d/m     | followed | /d/k
/d/n     | followed | /f
/d/n     | kept     | /d/n
/d/v     | followed | /d/w/z
/a/k     | followed | notdir
# To a directory. On the way a link is followed whatever the last name is.
/e       | followed | /d
/e       | kept     | /e
/e/k     | kept     | /d/k
/g/k     | kept     | /d/k
/e/x     | followed | /d/x
/e/m     | followed | /d/k
/e/m     | kept     | /d/m
/g/v     | followed | /d/w/z
/d/w/y/k | followed | /d/k
/r       | followed |
/r       | kept     | /r
/r/f     | kept     | /f
/r/r/a   | followed | /f
# Nowhere, or past a file.
/i       | followed | /d/x
/i/k     | followed | noent
/j       | followed | noent
/j       | kept     | /j
/t       | followed | notdir
# Targets that are no path, and the longest that are.
/p       | followed | noent
/p       | kept     | /p
/p/k     | kept     | noent
/q       | followed | noent
/s       | followed | noent
/A       | followed | notdir
/B       | followed | noent
/C       | followed | /nnnnnnnnnnnnnnnnnnnnnnnnnnnnnnnnnnnnnnnnnnnnnnnnnnnnnnnnnnnnnnnn
/D       | followed | noent
";

#[test]
fn paths_lead_through_links(rt: HostRuntime) -> Result<(), Fail> {
    expect(&rt, rt.alloc(), LED)
}

// Eight links are followed, wherever they stand; at the ninth one the walk ends.
const COUNTED: &str = "
/o                 | followed | loop
/o                 | kept     | /o
/o/k               | kept     | loop
/8                 | followed | /f
/9                 | followed | loop
/9                 | kept     | /9
/8/k               | kept     | notdir
/9/k               | kept     | loop
/d/w/y/w/y/w/y/w/y | followed | /d
/e/w/y/w/y/w/y/w/y | followed | loop
/e/w/y/w/y/w/y/w/y | kept     | /d/w/y
";

#[test]
fn eight_links_are_followed(rt: HostRuntime) -> Result<(), Fail> {
    expect(&rt, rt.alloc(), COUNTED)
}

const ASKED_FOR: &str = "
# The root's inode, and its sectors up to the name.
/f   | followed -i0   | needs 10737418240
/    | followed -i0   |
/f   | followed -s0   | needs 12884901888
/f   | followed -s0.1 | /f
/o   | kept -s0.1     | needs 12884901889
/o   | kept -s0.2     | /o
/x   | followed -s0.7 | needs 12884901895
# A directory on the way, and none at the end.
/d/k | followed -i1   | needs 10737418241
/d   | followed -i1   | /d
/d/k | followed -s1   | needs 12884901896
/f   | followed -i2   | /f
# A link that is followed.
/a   | followed -i6   | needs 10737418246
/a   | kept -i6       | /a
/e/k | followed -i8   | needs 10737418248
/e/k | followed -i1   | needs 10737418241
/e/m | followed -i28  | needs 10737418268
/e/m | kept -i28      | /d/m
/8   | followed -i19  | needs 10737418259
# The ninth link isn't looked at.
/9   | followed -i19  | loop
/9   | followed -i20  | needs 10737418260
";

#[test]
fn a_sector_that_is_not_cached_is_asked_for(rt: HostRuntime) -> Result<(), Fail> {
    expect(&rt, rt.alloc(), ASKED_FOR)
}
