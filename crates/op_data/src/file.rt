// The file that a path names, and the bytes of its sectors.
ghost use Rattle.std.specs.Prelude.{◌≡◌, ◌<◌, ◌+◌, IfOk, slice_index};
ghost use Rattle.frang_base.specs.declared.limits.TheConstants.{LARGE_BLOCK_SECTORS, SMALL_SECTORS_MAX};
ghost use Rattle.sector_bytes.specs.SectorMaps.{value_at};
ghost use Rattle.disk_definitions.specs.Store.{stored};
ghost use Rattle.disk_definitions.specs.Ask.{Got};
ghost use Rattle.disk_definitions.specs.FilePlans.{read_sector};
ghost use Rattle.dir_lookup.specs.Hands.{over};
ghost use Rattle.dir_lookup.specs.Reading.{read_of, read_or_lacks};
ghost use Rattle.op_data.specs.Files.{FindsFile, IsFile, place_of};
ghost use Rattle.op_data.specs.Looking.{LooksAtFile};

use dir_lookup::{Hand, Looked, Need, NumberedInode};
use disk_definitions::Inode;
use frang_base::limits::{KIND_DIRECTORY, KIND_FILE, SMALL_BLOCK_SECTORS, SMALL_SECTORS_MAX};
use frang_base::{Block, Path, Reply, Sector};
use frang_layout::{Region, sector_of};
use plan_steps::{Stop, inode_of, target_of};
use usable_sectors::Usable;

/// The file that a path names. `Refused` where the name isn't there or is another node's, by the kind that its entry tells, and where the
/// entry tells a file but the inode is another node's; `Need` where a sector isn't cached. What leads to it comes to `looked`.
pub(crate) fn file_of(hand: &Hand, path: &Path, looked: &mut Looked) -> Result<NumberedInode, Stop>
    ensures finds { FindsFile hand.now path.now result }
    ensures file { IfOk result (λ f. IsFile f.inode) }
    ensures looks { LooksAtFile hand.now looked.old looked.new path.now result }
{
    let target = target_of(hand.sectors, path, looked)?;
    if target.kind == KIND_DIRECTORY {
        return Err(Stop::Refused(Reply::IsDir));
    }
    if target.kind != KIND_FILE {
        return Err(Stop::Refused(Reply::Inval));
    }
    let inode = inode_of(hand.sectors, target.inode, looked)?;
    if inode.kind != KIND_FILE {
        return Err(Stop::Refused(Reply::Inval));
    }
    Ok(NumberedInode {
        number: target.inode,
        inode,
    })
}

/// The 512 bytes of sector `t` of a file, 0 to 2,175, whether or not they are below its size. `Need` where the sector isn't cached.
pub(crate) fn sector_bytes(hand: &Hand, inode: &Inode, t: u32) -> Result<Block, Need>
    requires { t < SMALL_SECTORS_MAX + LARGE_BLOCK_SECTORS }
    ensures { read_of slice_index result ≡ over (read_sector (stored inode.now) t Got) hand.now }
{
    block_at(hand.sectors, sector_of(&place_of(inode, t)))
}

// Where sector `t` of a file lies. The inode keeps its large block's number plus one.
fn place_of(inode: &Inode, t: u32) -> Region
    requires { t < SMALL_SECTORS_MAX + LARGE_BLOCK_SECTORS }
    ensures { result ≡ place_of (stored inode.now) t }
{
    if t < SMALL_SECTORS_MAX {
        Region::Small {
            block: inode.small[(t / SMALL_BLOCK_SECTORS) as usize],
            part: (t % SMALL_BLOCK_SECTORS) as u8,
        }
    } else {
        Region::Large {
            block: inode.large.saturating_sub(1),
            part: (t - SMALL_SECTORS_MAX) as u16,
        }
    }
}

// The block of a sector.
fn block_at(sectors: &Usable, sector: Sector) -> Result<Block, Need>
    ensures { read_of (λ block. block) result ≡ read_or_lacks sector.0 (value_at sectors.now.entries sector.0) }
{
    match sectors.get(sector) {
        Some(block) => Ok(*block),
        None => Err(Need(sector)),
    }
}
