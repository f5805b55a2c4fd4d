// The disk of an outside, saved.
ghost use Rattle.std.specs.Prelude.{◌≤◌};
ghost use Rattle.frang_base.specs.declared.limits.TheConstants.{SEGMENTS_MAX};

use disk_saving::{SaveFault, save_disk};
use frang_base::{NoMemory, Sector, ServerId};
use frang_outside::{FaultyOutside, FileFault, Files, MemFiles, MemOutside, Outside, Put, Taken};
use std::alloc::Global;
use std::process::Abort;
use std::test::Fail;
use test_tables::{block_of, lay};

// A sector, and the pieces of its block.
type Row = (u64, &'static str);

// The last sectors of the regions of a disk of one segment, and the first ones behind them; a sector that was written and is zero again.
const ON_ONE_SEGMENT: [Row; 13] = [
    (287_762_810_879, "511:0a"),
    (287_762_810_880, "0:0b"),
    (12_884_910_079, "7:'small"),
    (12_884_910_080, "0:0c"),
    (10_737_418_240, "3:'inode"),
    (10_737_418_240, ""),
    (10_737_418_303, "100:'last"),
    (10_737_418_304, "0:0d"),
    (4_294_967_296, "8:01"),
    (4_294_967_297, "8:02"),
    (2_147_483_903, "24:ff"),
    (2_147_483_904, "0:0e"),
    (0, "0:'FRANGPAR 8:020000000100000001"),
];

// The mark and six entries, each a sector in eight bytes and its block.
const IMAGE_OF_ONE_SEGMENT: &str = "0:'FRANGIM1 8:06
    24:'FRANGPAR 32:020000000100000001
    536:ff000080 568:ff
    1056:0000000001 1072:01
    1576:3f00008002 1684:'last
    2096:ff1f000003 2111:'small
    2616:ff07000043 3135:0a";

// The last sectors of a disk of 64 segments, and the first ones behind the large block of the first and of the last segment.
const ON_ALL_SEGMENTS: [Row; 7] = [
    (0, "0:01"),
    (4_286_578_943, "0:02"),
    (4_294_967_359, "0:03"),
    (10_737_422_335, "0:04"),
    (12_885_426_175, "0:05"),
    (423_054_280_703, "0:06"),
    (423_054_280_704, "0:07"),
];

const IMAGE_OF_ALL_SEGMENTS: &str = "0:'FRANGIM1 8:06
    24:01
    536:ff0080ff 544:02
    1056:3f00000001 1064:03
    1576:ff0f008002 1584:04
    2096:ffff070003 2104:05
    2616:ff07008062 2624:06";

// The host puts these blocks. Whether each was written.
fn put_all<O: Outside>(out: &mut O, rows: &[Row]) -> Result<bool, NoMemory> {
    for (sector, pieces) in rows {
        let put = Put {
            server: ServerId::HOST,
            behalf: ServerId::HOST,
            stamp: 15,
            now: 0,
            sector: Sector(*sector),
            bytes: block_of(0, pieces)?,
        };
        if out.put(&put) != Ok(Taken::Written) {
            return Ok(false);
        }
    }
    Ok(true)
}

// Whether a file is these pieces and else zeros.
fn is_file(
    alloc: Global,
    files: &mut MemFiles,
    name: &str,
    len: usize,
    pieces: &str,
) -> Result<bool, NoMemory> {
    let mut image = vec![in alloc; 0; len]?;
    lay(&mut image, pieces)?;
    match files.read(alloc, name, len as u64) {
        Ok(bytes) => Ok(bytes.as_slice() == image.as_slice()),
        Err(_) => Ok(false),
    }
}

// The disk of so many segments that has these blocks is saved as this image of six entries.
fn saves(
    rt: &impl Abort,
    alloc: Global,
    segments: u32,
    rows: &[Row],
    image: &str,
) -> Result<(), Fail>
    requires { segments ≤ SEGMENTS_MAX }
{
    let mut out = MemOutside::new(alloc);
    let mut files = MemFiles::new(alloc);
    let written = put_all(&mut out, rows)?;
    files.put_file("img", b"what was there before")?;
    let saved = save_disk(alloc, &mut out, segments, "img", &mut files);
    let same = is_file(alloc, &mut files, "img", 3136, image)?;
    assert!(rt; written && saved == Ok(()) && same, "{segments} segments");
    Ok(())
}

#[test]
fn a_disk_of_one_segment_is_saved(rt: HostRuntime) -> Result<(), Fail> {
    saves(&rt, rt.alloc(), 1, &ON_ONE_SEGMENT, IMAGE_OF_ONE_SEGMENT)
}

#[test]
fn a_disk_of_all_segments_is_saved(rt: HostRuntime) -> Result<(), Fail> {
    saves(&rt, rt.alloc(), 64, &ON_ALL_SEGMENTS, IMAGE_OF_ALL_SEGMENTS)
}

// How the saving of a disk of one segment ends whose get of this ordinal fails, and whether its file is there then.
fn saved_with(alloc: Global, get: u64) -> Result<(Result<(), SaveFault>, bool), NoMemory> {
    let mut gets = Vec::new(alloc);
    gets.push(get)?;
    let mut out = FaultyOutside::new(alloc, gets, Vec::new(alloc), Vec::new(alloc));
    let mut files = MemFiles::new(alloc);
    let saved = save_disk(alloc, &mut out, 1, "img", &mut files);
    let is_there = files.read(alloc, "img", u64::MAX).is_ok();
    Ok((saved, is_there))
}

// The get of this ordinal is of this sector.
fn fails(rt: &impl Abort, alloc: Global, get: u64, sector: u64) -> Result<(), Fail> {
    let (saved, is_there) = saved_with(alloc, get)?;
    let failed = saved
        == Err(SaveFault::Failed {
            sector: Sector(sector),
        });
    assert!(rt; failed && !is_there, "get {get}");
    Ok(())
}

// The first and the last sector of each region, in their order.
#[test]
fn gets_fail_in_turn(rt: HostRuntime) -> Result<(), Fail> {
    let alloc = rt.alloc();
    fails(&rt, alloc, 1, 0)?;
    fails(&rt, alloc, 2, 2_147_483_648)?;
    fails(&rt, alloc, 257, 2_147_483_903)?;
    fails(&rt, alloc, 258, 2_155_872_256)?;
    fails(&rt, alloc, 65_537, 4_286_578_943)?;
    fails(&rt, alloc, 65_538, 4_294_967_296)?;
    fails(&rt, alloc, 65_539, 10_737_418_240)?;
    fails(&rt, alloc, 65_602, 10_737_418_303)?;
    fails(&rt, alloc, 65_603, 12_884_901_888)?;
    fails(&rt, alloc, 73_794, 12_884_910_079)?;
    fails(&rt, alloc, 73_795, 287_762_808_832)?;
    fails(&rt, alloc, 75_842, 287_762_810_879)
}

// There is no get behind the last sector.
#[test]
fn a_further_get_may_fail(rt: HostRuntime) -> Result<(), Fail> {
    let (saved, is_there) = saved_with(rt.alloc(), 75_843)?;
    assert!(rt; saved == Ok(()) && is_there);
    Ok(())
}

// Files of which nothing is told, and none of which can be read or written.
#[derive(Drop)]
struct LostFiles {
    write_faults: u64,
}

impl Files for LostFiles {
    ghost use Rattle.std.specs.Prelude.{None};

    ghost state = { λ f. record { holds = None; read_faults = 0; write_faults = f.write_faults } };

    fn read(&mut self, _alloc: Global, _name: &str, _limit: u64) -> Result<Vec<u8>, FileFault> {
        Err(FileFault::NoMemory)
    }

    fn write(&mut self, _name: &str, _bytes: &[u8]) -> Result<(), FileFault> {
        self.write_faults = self.write_faults.saturating_add(1);
        Err(FileFault::Failed)
    }
}

#[test]
fn a_write_fails(rt: HostRuntime) -> Result<(), Fail> {
    let mut out = MemOutside::new(rt.alloc());
    let mut files = LostFiles { write_faults: 0 };
    let saved = save_disk(rt.alloc(), &mut out, 1, "img", &mut files);
    assert!(rt; saved == Err(SaveFault::WriteFailed) && files.write_faults == 1);
    Ok(())
}
