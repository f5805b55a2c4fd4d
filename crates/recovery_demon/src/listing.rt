// What a recovery wants done, as a list.
ghost use Rattle.std.specs.Prelude.{◌≡◌, ◌++◌, OnOk, map};
ghost use Rattle.std.specs.Map.{keys_of};
ghost use Rattle.ordered_map.specs.Chunks.{joined};
ghost use Rattle.recovery_demon.specs.Recovering.{load, look, write};

use crate::Next;
use frang_base::{Block, NoMemory, Sector};
use ordered_map::Chunk;

/// Adds a load of each slot of these pieces, in order.
pub(crate) fn push_loads(list: &mut Vec<Next>, pieces: &[Chunk<u8, ()>]) -> Result<(), NoMemory>
    ensures { OnOk result (list.new.items ≡ list.old.items ++ map load (keys_of (joined pieces.now))) }
{
    for piece in pieces {
        push_loads_of(list, piece.entries())?;
    }
    Ok(())
}

// The same of one piece.
fn push_loads_of(list: &mut Vec<Next>, piece: &[(u8, ())]) -> Result<(), NoMemory>
    ensures { OnOk result (list.new.items ≡ list.old.items ++ map load (keys_of piece.now)) }
{
    for (slot, _) in piece {
        list.push(Next::Load { slot: *slot })?;
    }
    Ok(())
}

/// Adds a look at each sector of these pieces, in order.
pub(crate) fn push_looks(list: &mut Vec<Next>, pieces: &[Chunk<u64, ()>]) -> Result<(), NoMemory>
    ensures { OnOk result (list.new.items ≡ list.old.items ++ map look (keys_of (joined pieces.now))) }
{
    for piece in pieces {
        push_looks_of(list, piece.entries())?;
    }
    Ok(())
}

// The same of one piece.
fn push_looks_of(list: &mut Vec<Next>, piece: &[(u64, ())]) -> Result<(), NoMemory>
    ensures { OnOk result (list.new.items ≡ list.old.items ++ map look (keys_of piece.now)) }
{
    for (sector, _) in piece {
        list.push(Next::Look(Sector(*sector)))?;
    }
    Ok(())
}

/// Adds a write of each sector of these pieces, in order.
pub(crate) fn push_writes(
    list: &mut Vec<Next>,
    pieces: &[Chunk<u64, Block>],
) -> Result<(), NoMemory>
    ensures { OnOk result (list.new.items ≡ list.old.items ++ map write (keys_of (joined pieces.now))) }
{
    for piece in pieces {
        push_writes_of(list, piece.entries())?;
    }
    Ok(())
}

// The same of one piece.
fn push_writes_of(list: &mut Vec<Next>, piece: &[(u64, Block)]) -> Result<(), NoMemory>
    ensures { OnOk result (list.new.items ≡ list.old.items ++ map write (keys_of piece.now)) }
{
    for (sector, _) in piece {
        list.push(Next::Write(Sector(*sector)))?;
    }
    Ok(())
}
