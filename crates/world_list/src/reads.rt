// The sectors that the host reads of the tree.
ghost use Rattle.std.specs.Prelude.{OnOk, map};
ghost use Rattle.std.specs.Map.{keys_of};
ghost use Rattle.core_definitions.specs.Events.{Read};
ghost use Rattle.ordered_map.specs.Chunks.{joined};
ghost use Rattle.world_list.specs.Listing.{Adds};

use frang_base::{NoMemory, Sector};
use hall_runs::Event;
use ordered_map::Chunk;

// A read of each sector of a piece.
fn push_reads_of(list: &mut Vec<Event>, piece: &[(u64, ())]) -> Result<(), NoMemory>
    ensures { OnOk result (Adds list.old.items list.new.items (map Read (keys_of piece.now))) }
{
    for (number, _) in piece {
        list.push(Event::Read(Sector(*number)))?;
    }
    Ok(())
}

/// The same of pieces that follow one another.
pub(crate) fn push_all_reads(
    list: &mut Vec<Event>,
    pieces: &[Chunk<u64, ()>],
) -> Result<(), NoMemory>
    ensures { OnOk result (Adds list.old.items list.new.items (map Read (keys_of (joined pieces.now)))) }
{
    for piece in pieces {
        push_reads_of(list, piece.entries())?;
    }
    Ok(())
}
