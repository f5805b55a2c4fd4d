// Sectors of directories.
use crate::builders::with;
use dir_block::{DirEntry, DirSector, decode, encode, find, patches};
use frang_base::Name;
use frang_base::limits::{KIND_DIRECTORY, KIND_FILE, KIND_FREE, KIND_LINK, SECTOR_BYTES};
use std::test::Fail;
use test_tables::{are_pieces, block_of};

const FREE: DirEntry = DirEntry {
    inode: 0,
    len: 0,
    kind: KIND_FREE,
    name: [0; 64],
};

const EMPTY: DirSector = DirSector {
    version: 3,
    entries: [FREE; 7],
};

const EMPTY_BLOCK: &str = "0:03";

// An entry whose name is one byte, so often.
fn entry(inode: u32, kind: u8, byte: u8, len: u8) -> DirEntry {
    let mut name = [0; 64];
    for place in name.iter_mut().take(usize::from(len)) {
        *place = byte;
    }
    DirEntry {
        inode,
        len,
        kind,
        name,
    }
}

// `b`, `aa` and `a` behind a free place, and `a` once more at the end.
fn several() -> DirSector {
    let mut sector = EMPTY;
    sector.entries[1] = entry(258, KIND_FILE, b'b', 1);
    sector.entries[2] = entry(7, KIND_DIRECTORY, b'a', 2);
    sector.entries[3] = entry(8, KIND_LINK, b'a', 1);
    sector.entries[6] = entry(9, KIND_FILE, b'a', 1);
    sector
}

const SEVERAL: &str =
    "0:03 80:020100000101'b 152:070000000202'aa 224:080000000103'a 440:090000000101'a";

#[test]
fn sectors_are_read_as_worked_out_by_hand(rt: HostRuntime) -> Result<(), Fail> {
    let (some, none) = (block_of(0, SEVERAL)?, block_of(0, EMPTY_BLOCK)?);
    assert!(rt; decode(&some) == Some(several()));
    assert!(rt; decode(&none) == Some(EMPTY));
    let mut written = [7; SECTOR_BYTES];
    for block in [some, none] {
        if let Some(read) = decode(&block) {
            encode(&read, &mut written);
            assert!(rt; written == block);
        }
    }
    Ok(())
}

// A fault, its place in the block of several entries, and the byte that stands there instead.
static REFUSED: [(&str, usize, u8); 16] = [
    ("no kind", 85, 0),
    ("a fourth kind", 85, 4),
    ("no name", 84, 0),
    ("a shorter name", 156, 1),
    ("a longer name", 84, 2),
    ("a name of 65 bytes", 84, 65),
    ("a slash", 86, b'/'),
    ("a dot alone", 86, b'.'),
    ("a byte behind the name", 149, 1),
    ("a byte behind the entry", 150, 1),
    ("another byte behind the entry", 151, 1),
    ("a free place with a number", 8, 1),
    ("a free place with a length", 12, 1),
    ("a free place with a kind", 13, 1),
    ("a free place with a name", 14, b'a'),
    ("the last byte", 511, 1),
];

#[test]
fn other_sectors_are_refused(rt: HostRuntime) -> Result<(), Fail> {
    let several = block_of(0, SEVERAL)?;
    for (what, at, byte) in &REFUSED {
        let found = decode(&with(&several, *at, *byte));
        assert!(rt; found.is_none(), "{what}");
    }
    Ok(())
}

// A name, and the place of its first entry.
static PLACES: [(&str, Option<u8>); 5] = [
    ("a", Some(3)),
    ("aa", Some(2)),
    ("b", Some(1)),
    ("aaa", None),
    ("c", None),
];

fn is_found_at(sector: &DirSector, name: &str, place: Option<u8>) -> bool {
    match Name::of(name.as_bytes()) {
        Some(name) => find(sector, &name) == place,
        None => false,
    }
}

#[test]
fn the_first_entry_of_a_name_is_found(rt: HostRuntime) {
    let sector = several();
    for (name, place) in &PLACES {
        assert!(rt; is_found_at(&sector, name, *place));
    }
}

// `a` goes from place 3, and the name at the end is `c` instead.
const CHANGED: &str = "0:04 80:020100000101'b 152:070000000202'aa 440:090000000101'c";

#[test]
fn what_changes_of_a_directory(rt: HostRuntime) -> Result<(), Fail> {
    let (old, new) = (
        decode(&block_of(0, SEVERAL)?),
        decode(&block_of(0, CHANGED)?),
    );
    assert!(rt; old.is_some() && new.is_some());
    if let (Some(old), Some(new)) = (&old, &new) {
        let found = patches(rt.alloc(), old, new)?;
        assert!(rt; are_pieces(&found, "224:00 228:000000 446:'c"));
    }
    Ok(())
}
