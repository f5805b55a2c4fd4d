// What is put behind a list of events.
ghost use Rattle.std.specs.Prelude.{OnOk};
ghost use Rattle.core_definitions.specs.Enabled.{only};
ghost use Rattle.hall_runs.specs.Asking.{event_of};
ghost use Rattle.world_list.specs.Listing.{Adds};

use frang_base::NoMemory;
use hall_runs::Event;

/// An event, if it may happen.
pub(crate) fn push_if(list: &mut Vec<Event>, may: bool, event: Event) -> Result<(), NoMemory>
    ensures { OnOk result (Adds list.old.items list.new.items (only may (event_of event))) }
{
    if may {
        list.push(event)?;
    }
    Ok(())
}
