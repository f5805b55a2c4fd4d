// The parameter sector.
use crate::builders::{FRESH_PARAMETERS, with};
use frang_base::limits::SECTOR_BYTES;
use param_block::{Param, decode, encode};
use std::test::Fail;
use test_tables::block_of;

#[test]
fn parameters_of_a_fresh_disk_of_16_segments(rt: HostRuntime) -> Result<(), Fail> {
    let param = Param {
        format: 2,
        segments: 16,
        run: 1,
    };
    let mut block = [7; SECTOR_BYTES];
    encode(&param, &mut block);
    assert!(rt; block == block_of(0, FRESH_PARAMETERS)?);
    assert!(rt; block[..4] == [0x46, 0x52, 0x41, 0x4E]);
    assert!(rt; decode(&block) == Some(param));
    Ok(())
}

#[test]
fn parameters_of_a_disk_without_times(rt: HostRuntime) -> Result<(), Fail> {
    let param = Param {
        format: 1,
        segments: 3,
        run: 258,
    };
    let worked = block_of(0, "0:'FRANGPAR 8:01000000030000000201")?;
    let mut block = [7; SECTOR_BYTES];
    encode(&param, &mut block);
    assert!(rt; block == worked);
    assert!(rt; decode(&worked) == Some(param));
    Ok(())
}

// A place, the byte that stands there instead, and whether the block is then a parameter sector.
static CHANGED: [(usize, u8, bool); 17] = [
    (0, 0x66, false),
    (7, 0x53, false),
    (8, 0, false),
    (8, 1, true),
    (8, 3, false),
    (8, 255, false),
    (9, 1, false),
    (11, 1, false),
    (12, 0, false),
    (12, 1, true),
    (12, 64, true),
    (12, 65, false),
    (15, 1, false),
    (16, 0, false),
    (19, 255, true),
    (20, 1, false),
    (511, 1, false),
];

#[test]
fn parameters_with_one_byte_changed(rt: HostRuntime) -> Result<(), Fail> {
    let fresh = block_of(0, FRESH_PARAMETERS)?;
    for (at, byte, fits) in &CHANGED {
        let found = decode(&with(&fresh, *at, *byte));
        assert!(rt; found.is_some() == *fits, "byte {at}");
    }
    Ok(())
}
