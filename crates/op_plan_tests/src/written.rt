// What edits write: sectors, versions and bytes worked out by hand from the format.
ghost use Rattle.disk_definitions.specs.Held.{AreSegments};
ghost use Rattle.plan_steps.specs.Edits.{edits_of};
ghost use Rattle.edit_writing.specs.Sectors.{HasNextVersions, at_hand};

use bitmap_block::BlockState;
use dir_lookup::Hand;
use disk_definitions::{DirEntry, Inode};
use edit_writing::{byte_writes, changes_of, freed_sectors, have_next_versions};
use frang_base::NoMemory;
use frang_base::limits::SECTOR_BYTES;
use meta_version::Sectors;
use plan_disks::{CachedDisk, Segment, add_changes, add_freed, add_writes, held_of, sectors_of};
use plan_steps::Edit;
use std::alloc::Global;
use std::process::Abort;
use std::test::Fail;

// The cached sectors, the edits, and what they write.
type Row = (&'static str, &'static [Edit], &'static str);

const FIRST: Segment = Segment {
    number: 0,
    version: 1,
    inodes: 1,
    others: 0,
    states: "",
    large: false,
};

const SECOND: Segment = Segment {
    number: 1,
    version: 7,
    inodes: 0,
    ..FIRST
};

// Both are held.
static SEGMENTS: [(&str, Segment); 2] = [("first", FIRST), ("second", SECOND)];

// A file by line 2 of run 1. What stands in place of a target, and the version, count for nothing.
const FILE: Inode = Inode {
    version: 9,
    kind: 1,
    links: 1,
    blocks: 0,
    size: 0,
    birth: 4_294_967_298,
    small: [0; 16],
    large: 0,
    when: 0,
    target: [7; 384],
};

// The same file, written at tick 600 of run 3.
const WRITTEN: Inode = Inode {
    when: 3 * 4_294_967_296 + 600,
    ..FILE
};

const FILE_MADE: Edit = Edit::Inode {
    number: 64,
    inode: Some(FILE),
    dated: false,
};

// The root with one entry in block 5.
const ROOT: Inode = Inode {
    version: 0,
    kind: 2,
    links: 1,
    blocks: 1,
    size: 1,
    birth: 0,
    small: [5, 0, 0, 0, 0, 0, 0, 0, 0, 0, 0, 0, 0, 0, 0, 0],
    large: 0,
    when: 0,
    target: [0; 384],
};

// A create of `a`: inode 64, as the first entry of the root, which gets small block 5. What stands behind a name counts for nothing.
const CREATE: &[Edit] = &[
    FILE_MADE,
    Edit::Bit {
        number: 64,
        used: true,
    },
    Edit::Use {
        block: 5,
        state: BlockState::Directory,
    },
    Edit::Place {
        block: 5,
        place: 0,
        entry: Some(DirEntry {
            inode: 64,
            len: 1,
            kind: 1,
            name: [b'a'; 64],
        }),
    },
    Edit::Inode {
        number: 0,
        inode: Some(ROOT),
        dated: false,
    },
];

// The edits of a truncate: small block 8 and large block 1 are given back, and a sector of small block 7 is written. Small block 9
// was a directory's.
const TRUNCATE: &[Edit] = &[
    Edit::Large {
        block: 1,
        used: false,
    },
    Edit::Use {
        block: 9,
        state: BlockState::FormerDirectory,
    },
    Edit::Use {
        block: 8,
        state: BlockState::Unused,
    },
    Edit::Bytes {
        block: 7,
        part: 1,
        bytes: [9; SECTOR_BYTES],
    },
    Edit::LargeBytes {
        block: 0,
        part: 3,
        bytes: [8; SECTOR_BYTES],
    },
];

const ONE_BIT: &[Edit] = &[Edit::Bit {
    number: 0,
    used: true,
}];

// The root, inode 64 and the first sector of small block 5, and of segment 0, which is held, an older state.
const CACHED: &str = "
i0 0:01 8:020001
i64
s5 0:03
k0=ff
";

// The root in a sector of the last version.
const LAST_VERSION: &str = "i0=ff";

// What the edits write over the cached sectors.
fn told(alloc: Global, cached: &str, edits: &[Edit]) -> Result<String, NoMemory> {
    let sectors = sectors_of(alloc, cached)?;
    told_over(alloc, &sectors, edits)
}

fn told_over(alloc: Global, sectors: &Sectors, edits: &[Edit]) -> Result<String, NoMemory> {
    let held = held_of(alloc, &SEGMENTS, "first second")?;
    let cached = CachedDisk::of(alloc, sectors)?;
    let usable = cached.usable();
    let hand = Hand {
        sectors: &usable,
        held: &held,
        all: true,
    };
    told_at_hand(alloc, &hand, edits)
}

// The changes, the bytes that are written, and the sectors that are freed.
fn told_at_hand(alloc: Global, hand: &Hand, edits: &[Edit]) -> Result<String, NoMemory>
    requires { AreSegments hand.now.held.now }
{
    if !have_next_versions(hand, edits) {
        return Ok(format!(in alloc; "a version has no next one")?);
    }
    let mut text = String::new(alloc);
    add_changed(alloc, &mut text, hand, edits)?;
    add_written(alloc, &mut text, edits)?;
    add_given_back(alloc, &mut text, edits)?;
    Ok(text)
}

fn add_changed(
    alloc: Global,
    text: &mut String,
    hand: &Hand,
    edits: &[Edit],
) -> Result<(), NoMemory>
    requires segments { AreSegments hand.now.held.now }
    requires versions { HasNextVersions (at_hand hand.now) (edits_of edits.now) }
{
    let changes = changes_of(alloc, hand, edits)?;
    add_changes(text, changes.as_slice())
}

fn add_written(alloc: Global, text: &mut String, edits: &[Edit]) -> Result<(), NoMemory> {
    let writes = byte_writes(alloc, edits)?;
    add_writes(text, writes.as_slice())
}

fn add_given_back(alloc: Global, text: &mut String, edits: &[Edit]) -> Result<(), NoMemory> {
    let freed = freed_sectors(alloc, edits)?;
    add_freed(text, freed.as_slice())
}

// Each row comes to what was worked out.
fn expect(rt: &impl Abort, alloc: Global, rows: &[Row]) -> Result<(), Fail> {
    for (place, (cached, edits, wanted)) in rows.iter().enumerate() {
        let text = told(alloc, cached, edits)?;
        assert!(rt; text.as_str() == *wanted, "row {place}: {text}");
    }
    Ok(())
}

static EDITED: [Row; 4] = [
    (
        CACHED,
        CREATE,
        ", 4294967296 v2 17:0c, 4294967297 v8 8:01, 10737418240 v2 12:01 16:01 32:05, \
         10737418304 v1 8:01 10:01 24:02 28:01, 12884901928 v4 8:40 12:010161",
    ),
    // What changes nothing is in no record.
    (CACHED, ONE_BIT, ""),
    (LAST_VERSION, CREATE, "a version has no next one"),
    // The bytes of files are written in their order.
    (
        CACHED,
        TRUNCATE,
        ", 4294967296 v2 18:08, 12884901945=(09*512), 287762808835=(08*512), freed 12884901952..12884901959, \
         freed 289910292480..289910294527",
    ),
];

#[test]
fn edits_write_what_was_worked_out_by_hand(rt: HostRuntime) -> Result<(), Fail> {
    expect(&rt, rt.alloc(), &EDITED)
}

const DATED: Edit = Edit::Inode {
    number: 64,
    inode: Some(WRITTEN),
    dated: true,
};

const NOT_DATED: Edit = Edit::Inode {
    number: 64,
    inode: Some(WRITTEN),
    dated: false,
};

// A free inode, dated.
const FREED: Edit = Edit::Inode {
    number: 64,
    inode: None,
    dated: true,
};

// Inode 64 as the dated edits have it.
const AS_WRITTEN: &str = "i64 0:01 8:010001 24:0200000001 100:5802000003";

// The same at tick 856 of that run.
const LATER: &str = "i64 0:01 8:010001 24:0200000001 100:5803000003";

// The same with bytes around the time that no inode has, up to it and apart from it.
const AROUND: &str = "i64 0:01 8:010001 24:0200000001 97:040009580200000300000005060008";

static BY_TIME: [Row; 11] = [
    // The time stays, and is in the record for all that.
    (
        AS_WRITTEN,
        &[DATED],
        ", 10737418304 v2 100:5802000003000000",
    ),
    (AS_WRITTEN, &[NOT_DATED], ""),
    // One byte of it changes.
    (LATER, &[DATED], ", 10737418304 v2 100:5802000003000000"),
    (LATER, &[NOT_DATED], ", 10737418304 v2 101:02"),
    // Bytes that change beside it are in the same patch.
    (
        AROUND,
        &[DATED],
        ", 10737418304 v2 97:00 99:005802000003(00*5) 111:00",
    ),
    (
        AROUND,
        &[NOT_DATED],
        ", 10737418304 v2 97:00 99:00 108:0000 111:00",
    ),
    // One dated edit of many is enough, wherever it stands.
    (
        AS_WRITTEN,
        &[DATED, NOT_DATED],
        ", 10737418304 v2 100:5802000003000000",
    ),
    (
        AS_WRITTEN,
        &[NOT_DATED, DATED],
        ", 10737418304 v2 100:5802000003000000",
    ),
    (
        AS_WRITTEN,
        &[FREED],
        ", 10737418304 v2 8:00 10:00 24:00 28:00 100:(00*8)",
    ),
    // Only in its own sector.
    (
        CACHED,
        &[
            Edit::Inode {
                number: 0,
                inode: Some(ROOT),
                dated: false,
            },
            DATED,
        ],
        ", 10737418240 v2 12:01 16:01 32:05, 10737418304 v1 8:01 10:01 24:02 28:01 100:5802000003000000",
    ),
    (
        LAST_VERSION,
        &[DATED],
        ", 10737418304 v1 8:01 10:01 24:02 28:01 100:5802000003000000",
    ),
];

#[test]
fn a_dated_inode_has_its_time_in_the_record(rt: HostRuntime) -> Result<(), Fail> {
    expect(&rt, rt.alloc(), &BY_TIME)
}
