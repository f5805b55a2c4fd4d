// What a recovery wants read.
ghost use Rattle.std.specs.Prelude.{OnOk};
ghost use Rattle.std.specs.List.{flat_map};
ghost use Rattle.world_list.specs.Listing.{Adds};
ghost use Rattle.world_list.specs.Wanting.{load_of, look_of};

use frang_base::{NoMemory, ServerId};
use hall_runs::Event;
use recovery_demon::Next;

/// Its loads.
pub(crate) fn push_loads_of(
    list: &mut Vec<Event>,
    by: ServerId,
    wants: &[Next],
) -> Result<(), NoMemory>
    ensures { OnOk result (Adds list.old.items list.new.items (flat_map (load_of by.0) wants.now)) }
{
    for next in wants {
        if let Next::Load { slot } = next {
            list.push(Event::Load(by, *slot))?;
        }
    }
    Ok(())
}

/// Its looks.
pub(crate) fn push_looks_of(
    list: &mut Vec<Event>,
    by: ServerId,
    wants: &[Next],
) -> Result<(), NoMemory>
    ensures { OnOk result (Adds list.old.items list.new.items (flat_map (look_of by.0) wants.now)) }
{
    for next in wants {
        if let Next::Look(sector) = next {
            list.push(Event::Look(by, *sector))?;
        }
    }
    Ok(())
}
