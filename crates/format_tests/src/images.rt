// Images: that of the fresh disk of 16 segments, and what one change makes of it.
use crate::builders::fresh_disk;
use disk_definitions::Disk;
use frang_base::limits::SECTOR_BYTES;
use frang_base::{NoMemory, Sector};
use image_file::{ImageRead, read_image, write_image};
use std::alloc::Global;
use std::test::Fail;
use test_tables::lay;

// The bytes of the fresh image that aren't zero: mark and count, the parameters, the first segment, the root.
const FRESH: &str =
    "0:'FRANGIM1 8:03 24:'FRANGPAR 32:020000001000000001 540:01 544:01 552:01 1059:8002 1064:01 1072:020001";

// The bytes of the fresh image.
const FRESH_LEN: usize = 1576;

// The first slot of the first log.
const LOG: Sector = Sector(2_147_483_648);

// The place and the kind of a fault, 0 and 0 where there is none.
type Fault = (u64, u8);

fn zero_from_to(image: &mut Vec<u8>, from: usize, to: usize) {
    for place in from..to {
        if let Some(there) = image.get_mut(place) {
            *there = 0;
        }
    }
}

fn front(image: &[u8], len: usize) -> &[u8] {
    if len < image.len() {
        &image[..len]
    } else {
        image
    }
}

fn fresh(alloc: Global) -> Result<Vec<u8>, NoMemory> {
    let mut image = vec![in alloc; 0; FRESH_LEN]?;
    lay(&mut image, FRESH)?;
    Ok(image)
}

fn fault_in(alloc: Global, image: &[u8]) -> Fault {
    match read_image(alloc, image) {
        Err(ImageRead::Bad { at, kind }) => (at, kind),
        _ => (0, 0),
    }
}

// The fault of the fresh image with these bytes in place of its own.
fn fault_after(alloc: Global, pieces: &str) -> Result<Fault, NoMemory> {
    let mut image = fresh(alloc)?;
    lay(&mut image, pieces)?;
    Ok(fault_in(alloc, &image))
}

fn has_image(alloc: Global, disk: &Disk, worked: &[u8]) -> Result<bool, NoMemory> {
    let mut image = Vec::new(alloc);
    write_image(disk, &mut image)?;
    Ok(image.as_slice() == worked)
}

fn has_fresh_image(alloc: Global, disk: &Disk) -> Result<bool, NoMemory> {
    let worked = fresh(alloc)?;
    has_image(alloc, disk, &worked)
}

#[test]
fn the_fresh_disk_has_this_image(rt: HostRuntime) -> Result<(), Fail> {
    let mut disk = fresh_disk(rt.alloc())?;
    disk.set(LOG, [0; SECTOR_BYTES])?;
    assert!(rt; has_fresh_image(rt.alloc(), &disk)?);
    Ok(())
}

#[test]
fn the_fresh_image_is_read(rt: HostRuntime) -> Result<(), Fail> {
    let worked = fresh(rt.alloc())?;
    let disk = read_image(rt.alloc(), &worked)?;
    assert!(rt; disk.len() == 3 && disk.get(Sector(10_737_418_240))[8] == 2);
    assert!(rt; has_fresh_image(rt.alloc(), &disk)?);
    Ok(())
}

// How many bytes there are, and the fault.
static FRONTS: [(usize, Fault); 7] = [
    (0, (0, 1)),
    (15, (0, 1)),
    (16, (16, 1)),
    (535, (16, 1)),
    (536, (536, 1)),
    (1575, (1056, 1)),
    (1577, (1576, 6)),
];

#[test]
fn bytes_that_end_early_or_late(rt: HostRuntime) -> Result<(), Fail> {
    let mut longer = fresh(rt.alloc())?;
    longer.push(0)?;
    for (len, fault) in &FRONTS {
        let found = fault_in(rt.alloc(), front(&longer, *len));
        assert!(rt; found == *fault, "{len} bytes");
    }
    Ok(())
}

#[test]
fn the_greatest_count(rt: HostRuntime) -> Result<(), Fail> {
    let mut image = fresh(rt.alloc())?;
    lay(&mut image, "8:ffffffffffffffff")?;
    assert!(rt; fault_in(rt.alloc(), &image) == (1576, 1));
    zero_from_to(&mut image, 8, 16);
    assert!(rt; fault_in(rt.alloc(), front(&image, 16)) == (16, 7));
    Ok(())
}

// The bytes that stand there instead, and the fault.
static CHANGES: [(&str, Fault); 27] = [
    ("0:00", (0, 2)),
    ("7:'2", (0, 2)),
    ("8:00", (16, 6)),
    ("8:01", (536, 6)),
    ("8:02", (1056, 6)),
    ("8:04", (1576, 1)),
    ("8:ff", (1576, 1)),
    ("16:01", (16, 7)),
    ("24:00", (16, 7)),
    ("32:00", (16, 7)),
    ("32:01", (0, 0)),
    ("32:03", (16, 7)),
    ("36:41", (16, 7)),
    ("36:01", (0, 0)),
    ("40:ffffffff", (16, 7)),
    ("40:feffffff", (0, 0)),
    ("536:0f", (0, 0)),
    ("536:10", (536, 4)),
    ("540:00", (536, 3)),
    ("1055:01", (536, 7)),
    ("1059:0001", (1056, 3)),
    ("1060:01", (1056, 4)),
    ("1060:00", (1056, 3)),
    ("1063:01", (1056, 4)),
    ("1072:04", (1056, 7)),
    ("1164:01", (1056, 7)),
    ("1171:01", (1056, 7)),
];

#[test]
fn some_bytes_changed(rt: HostRuntime) -> Result<(), Fail> {
    for (change, fault) in &CHANGES {
        let found = fault_after(rt.alloc(), change)?;
        assert!(rt; found == *fault, "{change}");
    }
    Ok(())
}

const EXCHANGED: &str = "539:8002 544:01 552:02 554:01 1059:0001 1072:01 1074:00";

#[test]
fn sectors_out_of_order(rt: HostRuntime) -> Result<(), Fail> {
    assert!(rt; fault_after(rt.alloc(), EXCHANGED)? == (1056, 3));
    Ok(())
}

const CLEAR: &str = "544:00 552:00";

const CLEAR_IN_NO_REGION: &str = "536:10 544:00 552:00";

#[test]
fn sectors_of_zeros(rt: HostRuntime) -> Result<(), Fail> {
    assert!(rt; fault_after(rt.alloc(), CLEAR)? == (536, 5));
    assert!(rt; fault_after(rt.alloc(), CLEAR_IN_NO_REGION)? == (536, 4));
    let mut image = fresh(rt.alloc())?;
    zero_from_to(&mut image, 24, 536);
    assert!(rt; fault_in(rt.alloc(), &image) == (16, 5));
    lay(&mut image, "16:01")?;
    assert!(rt; fault_in(rt.alloc(), &image) == (16, 7));
    Ok(())
}
