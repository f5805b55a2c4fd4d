// Sectors that were seen against those that are cached later, and the nodes among sectors.
use frang_base::Sector;
use lock_sets::{Comparison, Moved, Seen, SeenSectors};
use meta_version::Sectors;
use plan_disks::sectors_of;
use plan_locks::nodes_in;
use std::process::Abort;
use std::test::Fail;
use test_tables::block_of;

// Sectors 3, 5 and 7 in versions 300, 2 and 1.
const CACHED: &str = "3 0:2c01; 5 0:02; 7 0:01";

// Sector 3, which was seen in version 300, has moved.
fn moved(found: u64) -> Comparison {
    Comparison::HasMoved(Moved {
        sector: Sector(3),
        saw: 300,
        found,
    })
}

// Looks at two of the sectors, and again at one that has got newer.
fn sees_again(rt: &impl Abort, sectors: &mut Sectors, seen: &mut SeenSectors) -> Result<(), Fail> {
    assert!(rt; seen.compare(sectors) == Comparison::HasGoneThrough);
    seen.add_all(sectors, &[Sector(7), Sector(3), Sector(7)])?;
    assert!(rt; seen.has(Sector(3)));
    assert!(rt; !seen.has(Sector(5)));
    assert!(rt; seen.compare(sectors) == Comparison::HasGoneThrough);
    sectors.set(Sector(3), block_of(0, "0:2d01")?)?;
    seen.add(sectors, Sector(3))?;
    assert!(rt; seen.compare(sectors) == moved(301));
    Ok(())
}

#[test]
fn sectors_are_seen_once(rt: HostRuntime) -> Result<(), Fail> {
    let mut sectors = sectors_of(rt.alloc(), CACHED)?;
    let mut seen = SeenSectors::new(rt.alloc());
    sees_again(&rt, &mut sectors, &mut seen)
}

// Of three seen sectors the second gets another version, and then the others go.
fn compares(rt: &impl Abort, sectors: &mut Sectors, seen: &mut SeenSectors) -> Result<(), Fail> {
    seen.add_all(sectors, &[Sector(7), Sector(3), Sector(5)])?;
    sectors.set(Sector(3), block_of(0, "0:2c")?)?;
    sectors.remove(Sector(5));
    assert!(rt; seen.compare(sectors) == moved(44));
    sectors.remove(Sector(7));
    assert!(rt; seen.compare(sectors) == Comparison::HasStopped);
    Ok(())
}

#[test]
fn seen_sectors_are_compared_in_their_order(rt: HostRuntime) -> Result<(), Fail> {
    let mut sectors = sectors_of(rt.alloc(), CACHED)?;
    let mut seen = SeenSectors::new(rt.alloc());
    compares(&rt, &mut sectors, &mut seen)
}

fn saw(sector: u64, version: u64) -> Seen {
    Seen {
        sector: Sector(sector),
        version,
    }
}

// Further sectors are seen beside the old ones, which stay.
fn sees_more(rt: &impl Abort, sectors: &Sectors, seen: &mut SeenSectors) -> Result<(), Fail> {
    seen.add(sectors, Sector(7))?;
    let more = seen.with_more(sectors, &[Sector(7), Sector(5), Sector(9)])?;
    assert!(rt; !seen.has(Sector(5)));
    assert!(rt; seen.compare(sectors) == Comparison::HasGoneThrough);
    assert!(rt; more.as_slice() == [saw(7, 1), saw(5, 2), saw(9, 0)].as_slice());
    assert!(rt; more.compare(sectors) == Comparison::HasStopped);
    Ok(())
}

#[test]
fn more_is_seen_beside_the_old(rt: HostRuntime) -> Result<(), Fail> {
    let sectors = sectors_of(rt.alloc(), CACHED)?;
    let mut seen = SeenSectors::new(rt.alloc());
    sees_more(&rt, &sectors, &mut seen)
}

#[test]
fn inodes_among_sectors_are_nodes(rt: HostRuntime) -> Result<(), Fail> {
    let sectors = [
        Sector(10_737_418_241),
        Sector(4_294_967_296),
        Sector(12_884_901_920),
        Sector(10_737_418_240),
        Sector(10_737_418_241),
        Sector(10_737_418_304),
    ];
    let nodes = nodes_in(rt.alloc(), 1, &sectors)?;
    assert!(rt; nodes.as_slice() == [1, 0, 1].as_slice());
    Ok(())
}
