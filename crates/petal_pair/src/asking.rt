// The calls of two copies that are both in use.
ghost use Rattle.petal_pair.specs.PairedCalls.{BothGet, BothPut, PairGets, PairPuts};

use crate::InUse;
use frang_base::{Block, Sector, ServerId};
use frang_outside::{Failed, Outside, Put, PutFault, Taken};

/// Asks the first copy for a sector, and where it fails the second. The copies that are in use then.
pub(crate) fn get_of_both<A: Outside, B: Outside>(
    first: &mut A,
    second: &mut B,
    server: ServerId,
    sector: Sector,
) -> (Result<Block, Failed>, InUse)
    ensures { BothGet (A.state first.old) (A.state first.new) (B.state second.old) (B.state second.new) server.0 sector.0 result.0 result.1 }
{
    match first.get(server, sector) {
        Ok(block) => (Ok(block), InUse::Both),
        Err(Failed) => (second.get(server, sector), InUse::SecondAlone),
    }
}

/// Puts to the first copy and then to the second. The copies that are in use then.
pub(crate) fn put_to_both<A: Outside, B: Outside>(
    first: &mut A,
    second: &mut B,
    put: &Put,
) -> (Result<Taken, PutFault>, InUse)
    ensures { BothPut (A.state first.old) (A.state first.new) (B.state second.old) (B.state second.new) put.entry.now result.0 result.1 }
{
    match first.put(put) {
        Ok(Taken::Written) => match second.put(put) {
            Ok(_) => (Ok(Taken::Written), InUse::Both),
            Err(_) => (Ok(Taken::Written), InUse::FirstAlone),
        },
        Ok(Taken::Late) => {
            let _ = second.put(put);
            (Ok(Taken::Late), InUse::Both)
        }
        Err(PutFault::Failed) => (second.put(put), InUse::SecondAlone),
        Err(PutFault::NoMemory) => (Err(PutFault::NoMemory), InUse::Both),
    }
}

/// Asks the first copy in use for a sector, and where it fails the other one, if that is in use. The
/// copies that are in use then.
pub(crate) fn get_of_used<A: Outside, B: Outside>(
    first: &mut A,
    second: &mut B,
    in_use: InUse,
    server: ServerId,
    sector: Sector,
) -> (Result<Block, Failed>, InUse)
    ensures { PairGets in_use result.1 (A.state first.old) (A.state first.new) (B.state second.old) (B.state second.new) server.0 sector.0 result.0 }
{
    match in_use {
        InUse::Both => get_of_both(first, second, server, sector),
        InUse::FirstAlone => (first.get(server, sector), InUse::FirstAlone),
        InUse::SecondAlone => (second.get(server, sector), InUse::SecondAlone),
    }
}

/// Puts to the copies in use, to the first of them first. The copies that are in use then.
pub(crate) fn put_to_used<A: Outside, B: Outside>(
    first: &mut A,
    second: &mut B,
    in_use: InUse,
    put: &Put,
) -> (Result<Taken, PutFault>, InUse)
    ensures { PairPuts in_use result.1 (A.state first.old) (A.state first.new) (B.state second.old) (B.state second.new) put.entry.now result.0 }
{
    match in_use {
        InUse::Both => put_to_both(first, second, put),
        InUse::FirstAlone => (first.put(put), InUse::FirstAlone),
        InUse::SecondAlone => (second.put(put), InUse::SecondAlone),
    }
}
