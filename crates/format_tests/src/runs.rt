// The patches between two blocks.
use block_patches::{patches_of, patches_with};
use std::test::Fail;
use test_tables::{are_pieces, block_of};

// Bytes of the new block: its first, those of both ends, and two apart by one.
const NEW: &str = "0:09 8:0102 100:030004 510:0506";

const RUNS: &str = "8:0102 100:03 102:04 510:0506";

#[test]
fn runs_are_as_long_as_they_can_be(rt: HostRuntime) -> Result<(), Fail> {
    let found = patches_of(rt.alloc(), &block_of(0, "")?, &block_of(0, NEW)?)?;
    assert!(rt; are_pieces(&found, RUNS));
    Ok(())
}

#[test]
fn no_patches_where_only_the_version_differs(rt: HostRuntime) -> Result<(), Fail> {
    let old = [7; 512];
    let mut new = old;
    new[0] = 8;
    assert!(rt; patches_of(rt.alloc(), &old, &new)?.is_empty());
    Ok(())
}

// The forced places, and the one run of a block of sevens that stays as it is.
static FORCED: [(usize, usize, &str); 7] = [
    (100, 108, "100:0707070707070707"),
    (6, 10, "8:0707"),
    (510, 512, "510:0707"),
    (511, 600, "511:07"),
    (0, 8, ""),
    (100, 100, ""),
    (101, 100, ""),
];

#[test]
fn forced_places_are_patched_where_nothing_differs(rt: HostRuntime) -> Result<(), Fail> {
    let block = [7; 512];
    for (from, to, runs) in &FORCED {
        let found = patches_with(rt.alloc(), &block, &block, &(*from..*to))?;
        assert!(rt; are_pieces(&found, runs), "from {from} to {to}");
    }
    Ok(())
}

// Bytes of the new block, and the runs where the places 100 to 103 are forced over zeros.
static JOINED: [(&str, &str); 5] = [
    ("102:05", "100:00000500"),
    ("99:05", "99:0500000000"),
    ("104:05", "100:0000000005"),
    ("98:05 105:06", "98:05 100:00000000 105:06"),
    ("0:05", "100:00000000"),
];

#[test]
fn forced_places_join_what_differs(rt: HostRuntime) -> Result<(), Fail> {
    for (bytes, runs) in &JOINED {
        let (old, new) = (block_of(0, "")?, block_of(0, bytes)?);
        let found = patches_with(rt.alloc(), &old, &new, &(100..104))?;
        assert!(rt; are_pieces(&found, runs), "{bytes}");
    }
    Ok(())
}
