// The puts of an opening, one by one.
ghost use Rattle.std.specs.Prelude.{◌≡◌, ◌∷◌, [], IsTrue, MatchResult};
ghost use Rattle.disk_definitions.specs.Params.{param_bytes, param_fits};
ghost use Rattle.disk_definitions.specs.Regions.{sector_of};
ghost use Rattle.core_definitions.specs.Opening.{opening_put};
ghost use Rattle.opening.specs.Puts.{HasPut, StopsAt};

use disk_definitions::{Param, Region};
use frang_base::limits::{LEASE_TICKS, MARGIN_TICKS, SECTOR_BYTES};
use frang_base::{Block, Sector, ServerId};
use frang_layout::sector_of;
use frang_outside::{Outside, Put, PutFault};

/// Why an opening stops: a put failed, at this sector, or memory was wanting.
#[derive(Clone, Copy, PartialEq, Eq)]
pub enum OpenFault {
    Failed { sector: Sector },
    NoMemory,
}

// The put of a block of the opening.
fn opening_put(sector: Sector, bytes: Block) -> Put
    ensures { result ≡ opening_put (sector.0, bytes) }
{
    Put {
        server: ServerId::HOST,
        behalf: ServerId::HOST,
        stamp: LEASE_TICKS - MARGIN_TICKS,
        now: 0,
        sector,
        bytes,
    }
}

/// One put of the host, which is never late.
pub(crate) fn put_sector<O: Outside>(
    out: &mut O,
    sector: Sector,
    block: Block,
) -> Result<(), OpenFault>
    ensures { MatchResult result (λ _. HasPut (O.state out.old) (O.state out.new) ((sector.0, block) ∷ []))
        (λ fault. StopsAt (O.state out.old) (O.state out.new) ((sector.0, block) ∷ []) fault) }
{
    match out.put(&opening_put(sector, block)) {
        Ok(_) => Ok(()),
        Err(PutFault::Failed) => Err(OpenFault::Failed { sector }),
        Err(PutFault::NoMemory) => Err(OpenFault::NoMemory),
    }
}

/// The same at a place of the disk.
pub(crate) fn put_block<O: Outside>(
    out: &mut O,
    place: &Region,
    block: Block,
) -> Result<(), OpenFault>
    ensures { MatchResult result (λ _. HasPut (O.state out.old) (O.state out.new) ((sector_of place.now, block) ∷ []))
        (λ fault. StopsAt (O.state out.old) (O.state out.new) ((sector_of place.now, block) ∷ []) fault) }
{
    put_sector(out, sector_of(place), block)
}

/// Parameters as a block.
pub(crate) fn param_block_of(param: &Param) -> Block
    requires { IsTrue (param_fits param.now) }
    ensures { result ≡ param_bytes param.now }
{
    let mut block = [0; SECTOR_BYTES];
    param_block::encode(param, &mut block);
    block
}
