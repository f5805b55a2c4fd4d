// The opening on the disk of an image.
ghost use Rattle.std.specs.Prelude.{◌≡◌, IsTrue, List, MatchResult, OnOk, filter};
ghost use Rattle.frang_base.specs.declared.script.Line.{Line};
ghost use Rattle.tree_definitions.specs.Tree.{FileTree};
ghost use Rattle.sector_bytes.specs.Sectors.{SameSectors};
ghost use Rattle.disk_definitions.specs.Params.{param_fits};
ghost use Rattle.disk_definitions.specs.Regions.{region_of};
ghost use Rattle.disk_definitions.specs.Replay.{is_log};
ghost use Rattle.frang_base.specs.declared.limits.TheConstants.{SEGMENTS_MAX};
ghost use Rattle.core_definitions.specs.Opening.{image_puts, image_start, is_put, next_param};
ghost use Rattle.opening.specs.Puts.{HasPut, IsBlank, StopsAt};

use crate::puts::{OpenFault, param_block_of, put_block, put_sector};
use disk_definitions::{Disk, FORMAT_NEWEST, Param, Region};
use frang_base::limits::SEGMENTS_MAX;
use frang_base::{Block, Sector};
use frang_layout::region_of;
use frang_outside::Outside;
use sector_bytes::are_zero;

// The parameters of the next run, in the newest format.
fn next_param(param: &Param) -> Param
    requires { IsTrue (param_fits (next_param param.now)) }
    ensures { result ≡ next_param param.now }
{
    Param {
        format: FORMAT_NEWEST,
        segments: param.segments,
        run: param.run + 1,
    }
}

// Whether a sector is one of a log.
fn is_in_log(sector: Sector) -> bool
    ensures { result ≡ is_log (region_of SEGMENTS_MAX sector.0) }
{
    match region_of(sector, SEGMENTS_MAX) {
        Some(Region::Log { .. }) => true,
        _ => false,
    }
}

// Whether the opening puts a sector of a replayed disk: it isn't zero, and neither the parameters' nor one of a log.
fn is_put(sector: Sector, block: &Block) -> bool
    ensures { result ≡ is_put (sector.0, block.now) }
{
    !are_zero(block) && sector.0 != 0 && !is_in_log(sector)
}

// Puts the sectors of a replayed disk that aren't zero, ascending, but for those of logs and the parameters.
fn put_sectors<O: Outside>(out: &mut O, disk: &Disk) -> Result<(), OpenFault>
    ensures { MatchResult result (λ _. HasPut (O.state out.old) (O.state out.new) (filter is_put disk.now))
        (λ fault. StopsAt (O.state out.old) (O.state out.new) (filter is_put disk.now) fault) }
{
    for (sector, block) in disk.as_map() {
        if is_put(Sector(*sector), block.get()) {
            put_sector(out, Sector(*sector), *block.get())?;
        }
    }
    Ok(())
}

/// Puts the disk of an image for its next run: of the disk once its logs are replayed each sector that isn't zero, ascending, but for those of logs; and last its
/// parameters, in the newest format and with the next run's number. Each is the host's put at tick 0. What the other sectors hold isn't looked at; over sectors of zeros the disk is then
/// the one that a run on this image begins from, and every log reads as zero.
///
/// After `Failed` the puts before the failed one are made, its sector has the old bytes or the new ones, and the count of the host has
/// risen. After `NoMemory` the puts before the refused one are made, and no more.
pub fn open_image<O: Outside>(out: &mut O, param: &Param, disk: &Disk) -> Result<(), OpenFault>
    requires { IsTrue (param_fits (next_param param.now)) }
    ensures puts { MatchResult result (λ _. HasPut (O.state out.old) (O.state out.new) (image_puts param.now disk.now))
        (λ fault. StopsAt (O.state out.old) (O.state out.new) (image_puts param.now disk.now) fault) }
    ensures start { OnOk result (IsBlank (O.state out.old) → (script : List Line) (tree : FileTree) → SameSectors (O.state out.new).sectors (image_start script param.now tree disk.now).disk) }
{
    put_sectors(out, disk)?;
    put_block(out, &Region::Param, param_block_of(&next_param(param)))
}
