// The opening on a fresh disk.
ghost use Rattle.std.specs.Prelude.{◌≡◌, IsTrue, List, MatchResult, OnOk};
ghost use Rattle.frang_base.specs.declared.script.Line.{Line};
ghost use Rattle.sector_bytes.specs.Sectors.{SameSectors};
ghost use Rattle.disk_definitions.specs.Bitmaps.{bitmap_bytes};
ghost use Rattle.disk_definitions.specs.FreshDisk.{first_bitmap, fresh_param, root_inode};
ghost use Rattle.disk_definitions.specs.Inodes.{inode_bytes};
ghost use Rattle.disk_definitions.specs.Params.{param_fits};
ghost use Rattle.core_definitions.specs.Opening.{fresh_puts, fresh_start};
ghost use Rattle.opening.specs.Puts.{HasPut, IsBlank, StopsAt};

use crate::puts::{OpenFault, param_block_of, put_block};
use disk_definitions::{FORMAT_NEWEST, Inode, Param, Region};
use frang_base::limits::{
    INODE_BLOCKS_MAX, KIND_DIRECTORY, ROOT_INODE, SECTOR_BYTES, TARGET_BYTES_MAX,
};
use frang_base::{Bitmap, Block};
use frang_outside::Outside;

/// Puts a fresh disk of so many segments, 1 to 64: the root's inode, the first segment of the bitmap, and last the parameters of the
/// first run. Each is the host's put at tick 0. What the other sectors hold isn't looked at; over sectors of zeros the disk is then the one that a run begins from.
///
/// After `Failed` the puts before the failed one are made, its sector has the old bytes or the new ones, and the count of the host has
/// risen. After `NoMemory` the puts before the refused one are made, and no more.
pub fn open_fresh<O: Outside>(out: &mut O, segments: u32) -> Result<(), OpenFault>
    requires { IsTrue (param_fits (fresh_param segments)) }
    ensures puts { MatchResult result (λ _. HasPut (O.state out.old) (O.state out.new) (fresh_puts segments))
        (λ fault. StopsAt (O.state out.old) (O.state out.new) (fresh_puts segments) fault) }
    ensures start { OnOk result (IsBlank (O.state out.old) → (script : List Line) → SameSectors (O.state out.new).sectors (fresh_start script segments).disk) }
{
    put_block(out, &Region::Inode(ROOT_INODE), root_inode_block())?;
    put_block(out, &Region::Segment(0), first_segment_block())?;
    put_block(out, &Region::Param, param_block_of(&fresh_param(segments)))
}

// The inode of a root without entries.
fn root_inode_block() -> Block
    ensures { result ≡ inode_bytes root_inode }
{
    let root = Inode {
        version: 1,
        kind: KIND_DIRECTORY,
        links: 1,
        blocks: 0,
        size: 0,
        birth: 0,
        small: [0; INODE_BLOCKS_MAX as usize],
        large: 0,
        when: 0,
        target: [0; TARGET_BYTES_MAX],
    };
    let mut block = [0; SECTOR_BYTES];
    inode_block::encode(&root, &mut block);
    block
}

// The first segment of the bitmap, in which the root's inode alone is in use.
fn first_segment_block() -> Block
    ensures { result ≡ bitmap_bytes first_bitmap }
{
    let first = Bitmap {
        version: 1,
        inodes: 1,
        states: [0; 256],
        large: false,
    };
    let mut block = [0; SECTOR_BYTES];
    bitmap_block::encode(&first, &mut block);
    block
}

// The parameters of the first run.
fn fresh_param(segments: u32) -> Param
    ensures { result ≡ fresh_param segments }
{
    Param {
        format: FORMAT_NEWEST,
        segments,
        run: 1,
    }
}
