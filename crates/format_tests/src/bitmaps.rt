// Segments of the allocation bitmap.
use crate::builders::with;
use bitmap_block::{
    Bitmap, BlockState, decode, encode, inode_in_use, patches, state_of, with_inode, with_state,
};
use frang_base::NoMemory;
use frang_base::limits::{SECTOR_BYTES, SEGMENT_BLOCKS, SEGMENT_INODES};
use std::test::Fail;
use test_tables::{are_pieces, block_of};

// A segment of which only the root is in use.
fn fresh() -> Bitmap {
    Bitmap {
        version: 1,
        inodes: 1,
        states: [0; 256],
        large: false,
    }
}

const FRESH: &str = "0:01 8:01";

// Inodes 0, 9 and 63, the large block, and eight blocks in each state from either end.
fn busy() -> Bitmap {
    let mut states = [0; 256];
    states[0] = 0b11_10_01_00;
    states[1] = 0b00_01_10_11;
    states[255] = 0b10_00_00_00;
    Bitmap {
        version: 258,
        inodes: 1 << 63 | 1 << 9 | 1,
        states,
        large: true,
    }
}

const BUSY: &str = "0:0201 8:0102 15:80 16:e41b 271:8001";

// Whether the segment is written as these pieces over other bytes, and read as it is.
fn is_written(segment: Bitmap, worked: &str) -> Result<bool, NoMemory> {
    let mut block = [7; SECTOR_BYTES];
    encode(&segment, &mut block);
    Ok(block == block_of(0, worked)? && decode(&block) == Some(segment))
}

#[test]
fn segments_are_written_as_worked_out_by_hand(rt: HostRuntime) -> Result<(), Fail> {
    assert!(rt; is_written(fresh(), FRESH)?, "fresh");
    assert!(rt; is_written(busy(), BUSY)?, "busy");
    Ok(())
}

// A place, and the byte that stands there instead.
static REFUSED: [(usize, u8); 5] = [(272, 2), (272, 255), (273, 1), (400, 9), (511, 1)];

#[test]
fn other_blocks_are_refused(rt: HostRuntime) -> Result<(), Fail> {
    let busy = block_of(0, BUSY)?;
    for (at, byte) in &REFUSED {
        let found = decode(&with(&busy, *at, *byte));
        assert!(rt; found.is_none(), "byte {byte} at {at}");
    }
    Ok(())
}

// An inode of the busy segment, and whether it is in use.
static BITS: [(u32, bool); 5] = [(0, true), (1, false), (8, false), (9, true), (63, true)];

// A small block of it, and its state.
static STATES: [(u32, BlockState); 9] = [
    (0, BlockState::Unused),
    (1, BlockState::FileBytes),
    (2, BlockState::FormerDirectory),
    (3, BlockState::Directory),
    (4, BlockState::Directory),
    (5, BlockState::FormerDirectory),
    (6, BlockState::FileBytes),
    (7, BlockState::Unused),
    (1023, BlockState::FormerDirectory),
];

fn has_bit(segment: &Bitmap, j: u32, used: bool) -> bool {
    j < SEGMENT_INODES && inode_in_use(segment, j) == used
}

fn has_state(segment: &Bitmap, j: u32, state: BlockState) -> bool {
    j < SEGMENT_BLOCKS && state_of(segment, j) == state
}

#[test]
fn bits_and_states_stand_at_their_places(rt: HostRuntime) {
    let segment = busy();
    for (j, used) in &BITS {
        assert!(rt; has_bit(&segment, *j, *used), "inode {j}");
    }
    for (j, state) in &STATES {
        assert!(rt; has_state(&segment, *j, *state), "block {j}");
    }
}

// The busy segment with two other bits, and then with three other states.
fn other_bits() -> Bitmap {
    with_inode(&with_inode(&busy(), 9, false), 1, true)
}

fn other_states() -> Bitmap {
    let segment = with_state(&other_bits(), 1, BlockState::Directory);
    let segment = with_state(&segment, 3, BlockState::Unused);
    with_state(&segment, 1022, BlockState::FileBytes)
}

#[test]
fn one_bit_or_state_is_changed(rt: HostRuntime) {
    assert!(rt; other_bits().inodes == 1 << 63 | 2 | 1);
    let mut states = busy().states;
    states[0] = 0b00_10_11_00;
    states[255] = 0b10_01_00_00;
    assert!(rt; other_states().states == states);
}

// The busy segment with another version, bit and state, and its large block free.
fn last() -> Bitmap {
    let mut segment = with_state(&with_inode(&busy(), 8, true), 1023, BlockState::Directory);
    segment.version = 300;
    segment.large = false;
    segment
}

const LAST: &str = "9:03 271:c000";

#[test]
fn what_changes_of_a_segment(rt: HostRuntime) -> Result<(), Fail> {
    let found = patches(rt.alloc(), &busy(), &last())?;
    assert!(rt; are_pieces(&found, LAST));
    let mut newer = fresh();
    newer.version = 2;
    assert!(rt; patches(rt.alloc(), &fresh(), &newer)?.is_empty());
    Ok(())
}
