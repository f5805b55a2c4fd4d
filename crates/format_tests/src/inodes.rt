// Inodes and their sectors.
ghost use Rattle.std.specs.Prelude.{◌≤◌, IsTrue};
ghost use Rattle.disk_definitions.specs.Inodes.{inode_fits};

use crate::builders::with;
use frang_base::Block;
use frang_base::limits::{
    KIND_DIRECTORY, KIND_FILE, KIND_LINK, LINKS_MAX, SECTOR_BYTES, SMALL_BLOCK_BYTES,
};
use inode_block::{Inode, decode, encode, patches};
use std::test::Fail;
use test_tables::{are_pieces, block_of};

// The root of a fresh disk.
fn root() -> Inode {
    Inode {
        version: 1,
        kind: KIND_DIRECTORY,
        links: 1,
        blocks: 0,
        size: 0,
        birth: 0,
        small: [0; 16],
        large: 0,
        when: 0,
        target: [0; 384],
    }
}

// A free inode but for its version 1, its kind and its one name.
const ROOT: &str = "0:01 8:020001";

// A link to `/a` of three names, made by line 3 of run 1.
const LINK: &str = "0:05 8:030003 16:02 24:0300000001 128:'/a";

// A file of 258 bytes in small block 9, made by line 1 of run 2 and last written in run 3 at tick 513.
const TIMED: &str = "0:04 8:01000100010000000201 24:0100000002 32:09 100:0102 104:03";

// A file of so many bytes in small block 9, with so many names, last written at this time.
fn file(version: u64, links: u16, size: u64, when: u64) -> Inode
    requires links { (1 ≤ links) × (links ≤ LINKS_MAX) }
    requires size { (1 ≤ size) × (size ≤ SMALL_BLOCK_BYTES) }
    ensures { IsTrue (inode_fits result) }
{
    let mut small = [0; 16];
    small[0] = 9;
    Inode {
        version,
        kind: KIND_FILE,
        links,
        blocks: 1,
        size,
        birth: 1,
        small,
        large: 0,
        when,
        target: [0; 384],
    }
}

#[test]
fn a_fresh_root_begins_with_its_version_kind_and_link(rt: HostRuntime) -> Result<(), Fail> {
    let mut block = [7; SECTOR_BYTES];
    encode(&root(), &mut block);
    assert!(rt; block == block_of(0, ROOT)?);
    assert!(rt; decode(&block) == Some(root()));
    Ok(())
}

fn link() -> Inode {
    let mut target = [0; 384];
    target[0] = b'/';
    target[1] = b'a';
    Inode {
        version: 5,
        kind: KIND_LINK,
        links: 3,
        blocks: 0,
        size: 2,
        birth: 4_294_967_299,
        small: [0; 16],
        large: 0,
        when: 0,
        target,
    }
}

#[test]
fn a_link_is_read_field_by_field(rt: HostRuntime) -> Result<(), Fail> {
    assert!(rt; decode(&block_of(0, LINK)?) == Some(link()));
    Ok(())
}

// A place of the link, the byte that stands there instead, and whether the block is then an inode's.
static LINKS_CHANGED: [(usize, u8, bool); 18] = [
    (0, 6, true),
    (8, 4, false),
    (9, 1, false),
    (10, 0, false),
    (12, 1, false),
    (14, 1, false),
    (16, 3, false),
    (17, 2, false),
    (32, 1, false),
    (96, 1, false),
    (100, 1, false),
    (107, 1, false),
    (108, 1, false),
    (128, 0x20, false),
    (128, 0x7F, false),
    (129, 0xFF, true),
    (130, b'b', false),
    (511, 1, false),
];

// Whether the block is an inode's with another byte at a place.
fn fits_with(block: &Block, at: usize, byte: u8) -> bool {
    decode(&with(block, at, byte)).is_some()
}

#[test]
fn a_link_with_one_byte_changed(rt: HostRuntime) -> Result<(), Fail> {
    let link = block_of(0, LINK)?;
    for (at, byte, fits) in &LINKS_CHANGED {
        assert!(rt; fits_with(&link, *at, *byte) == *fits, "byte {at}");
    }
    Ok(())
}

#[test]
fn a_file_with_its_time(rt: HostRuntime) -> Result<(), Fail> {
    let mut timed = file(4, 1, 258, 12_884_902_401);
    timed.birth = 8_589_934_593;
    let mut block = [7; SECTOR_BYTES];
    encode(&timed, &mut block);
    assert!(rt; block == block_of(0, TIMED)?);
    assert!(rt; decode(&block) == Some(timed));
    Ok(())
}

// A place of the file, the byte that stands there instead, and the time that it then has, if the block is an inode's.
static TIMED_CHANGED: [(usize, u8, Option<u64>); 9] = [
    (100, 0, Some(12_884_902_400)),
    (104, 0, Some(513)),
    (107, 255, Some(18_374_686_492_556_526_081)),
    (108, 1, None),
    (127, 1, None),
    (128, 1, None),
    (8, 0, None),
    (8, 2, None),
    (8, 3, None),
];

// The time of the block's inode, with another byte at a place.
fn time_with(block: &Block, at: usize, byte: u8) -> Option<u64> {
    match decode(&with(block, at, byte)) {
        Some(inode) => Some(inode.when),
        None => None,
    }
}

#[test]
fn a_timed_file_with_one_byte_changed(rt: HostRuntime) -> Result<(), Fail> {
    let timed = block_of(0, TIMED)?;
    for (at, byte, time) in &TIMED_CHANGED {
        assert!(rt; time_with(&timed, *at, *byte) == *time, "byte {at}");
    }
    Ok(())
}

// The first place of a time at which such a block may have another byte.
fn first_timed(block: &Block) -> Option<usize> {
    for at in 100..108 {
        if fits_with(block, at, 1) {
            return Some(at);
        }
    }
    None
}

#[test]
fn only_files_have_a_time(rt: HostRuntime) -> Result<(), Fail> {
    assert!(rt; first_timed(&block_of(0, ROOT)?).is_none(), "the root");
    assert!(rt; first_timed(&block_of(0, "")?).is_none(), "a free inode");
    assert!(rt; first_timed(&block_of(0, LINK)?).is_none(), "a link");
    Ok(())
}

const GROWN: &str = "10:02 16:0102 100:02";

#[test]
fn what_changes_of_a_file_that_grows_and_gets_a_name(rt: HostRuntime) -> Result<(), Fail> {
    let old = file(1, 1, 255, 4_294_967_297);
    let new = file(2, 2, 513, 4_294_967_298);
    let patches = patches(rt.alloc(), &old, &new)?;
    assert!(rt; are_pieces(&patches, GROWN));
    Ok(())
}
