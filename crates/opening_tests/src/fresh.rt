// The puts on a fresh disk.
ghost use Rattle.std.specs.Prelude.{IsTrue};
ghost use Rattle.disk_definitions.specs.FreshDisk.{fresh_param};
ghost use Rattle.disk_definitions.specs.Params.{param_fits};

use frang_base::{Block, NoMemory, Sector, ServerId};
use frang_outside::{Act, FaultyOutside, MemOutside, Outside, Taken};
use opening::{OpenFault, open_fresh};
use std::alloc::Global;
use std::process::Abort;
use std::test::Fail;
use test_tables::block_of;

// A directory's inode of version 1 and one link, without entries; a segment of version 1 with its first inode in use.
const ROOT: (u64, &str) = (10_737_418_240, "0:01 8:02 10:01");

const SEGMENT: (u64, &str) = (4_294_967_296, "0:01 8:01");

// Format 2, so many segments, run 1.
const PARAMETERS_1: (u64, &str) = (0, "0:'FRANGPAR 8:020000000100000001");

const PARAMETERS_16: (u64, &str) = (0, "0:'FRANGPAR 8:020000001000000001");

const PARAMETERS_64: (u64, &str) = (0, "0:'FRANGPAR 8:020000004000000001");

// The act is the host's put of these pieces at tick 0, to arrive until tick 15.
fn is_put(act: &Act, sector: u64, block: &Block) -> bool {
    match act {
        Act::Put(put, Taken::Written) => {
            put.server == ServerId::HOST
                && put.behalf == ServerId::HOST
                && put.stamp == 15
                && put.now == 0
                && put.sector == Sector(sector)
                && put.bytes == *block
        }
        _ => false,
    }
}

// The record has these puts and nothing else, in their order.
fn are_puts(acts: &[Act], puts: &[(u64, &str)]) -> Result<bool, NoMemory> {
    let mut rest = acts.iter();
    for (sector, pieces) in puts {
        let block = block_of(0, pieces)?;
        match rest.next() {
            Some(act) if is_put(act, *sector, &block) => {}
            _ => return Ok(false),
        }
    }
    Ok(rest.next().is_none())
}

// The sector has these pieces and zeros else.
fn reads<O: Outside>(out: &mut O, sector: u64, pieces: &str) -> Result<bool, NoMemory> {
    Ok(out.get(ServerId::HOST, Sector(sector)) == Ok(block_of(0, pieces)?))
}

fn opens(rt: &impl Abort, alloc: Global, segments: u32, parameters: (u64, &str)) -> Result<(), Fail>
    requires { IsTrue (param_fits (fresh_param segments)) }
{
    let mut out = MemOutside::new(alloc);
    let opened = open_fresh(&mut out, segments);
    let puts = are_puts(out.acts(), &[ROOT, SEGMENT, parameters])?;
    let root = reads(&mut out, ROOT.0, ROOT.1)?;
    let segment = reads(&mut out, SEGMENT.0, SEGMENT.1)?;
    let first = reads(&mut out, parameters.0, parameters.1)?;
    let log = reads(&mut out, 2_147_483_648, "")?;
    assert!(rt; opened == Ok(()) && puts);
    assert!(rt; root && segment && first && log);
    Ok(())
}

#[test]
fn a_fresh_disk_is_opened(rt: HostRuntime) -> Result<(), Fail> {
    opens(&rt, rt.alloc(), 1, PARAMETERS_1)?;
    opens(&rt, rt.alloc(), 16, PARAMETERS_16)?;
    opens(&rt, rt.alloc(), 64, PARAMETERS_64)
}

// The put of this ordinal fails.
fn failing(alloc: Global, put: u64) -> Result<FaultyOutside, NoMemory> {
    let mut puts = Vec::new(alloc);
    puts.push(put)?;
    Ok(FaultyOutside::new(alloc, Vec::new(alloc), puts, Vec::new(alloc)))
}

// The opening failed at this sector.
fn failed_at(opened: Result<(), OpenFault>, sector: Option<&u64>) -> bool {
    match (opened, sector) {
        (Err(OpenFault::Failed { sector: at }), Some(sector)) => at.0 == *sector,
        _ => false,
    }
}

// The put of this ordinal fails, which is of the first of these sectors: the record has those before it, and the sectors from it on are zero.
fn stops(
    rt: &impl Abort,
    alloc: Global,
    put: u64,
    before: &[(u64, &str)],
    from: &[u64],
) -> Result<(), Fail> {
    let mut out = failing(alloc, put)?;
    let opened = open_fresh(&mut out, 16);
    let puts = are_puts(out.acts(), before)?;
    assert!(rt; failed_at(opened, from.first()) && puts, "put {put}");
    for sector in from {
        let zero = reads(&mut out, *sector, "")?;
        assert!(rt; zero, "sector {sector}");
    }
    Ok(())
}

#[test]
fn each_put_fails_in_turn(rt: HostRuntime) -> Result<(), Fail> {
    stops(
        &rt,
        rt.alloc(),
        1,
        &[],
        &[ROOT.0, SEGMENT.0, PARAMETERS_16.0],
    )?;
    stops(&rt, rt.alloc(), 2, &[ROOT], &[SEGMENT.0, PARAMETERS_16.0])?;
    stops(&rt, rt.alloc(), 3, &[ROOT, SEGMENT], &[PARAMETERS_16.0])
}

// What fails behind the opening is no matter of it.
#[test]
fn a_fourth_put_may_fail(rt: HostRuntime) -> Result<(), Fail> {
    let mut out = failing(rt.alloc(), 4)?;
    let opened = open_fresh(&mut out, 16);
    let puts = are_puts(out.acts(), &[ROOT, SEGMENT, PARAMETERS_16])?;
    assert!(rt; opened == Ok(()) && puts);
    Ok(())
}
