//! First moments. Each law is the contract of a public function.

ghost use Rattle.std.specs.Prelude.{ℕ};
ghost use Rattle.core_definitions.specs.Runs.{State};
ghost use Rattle.core_runs.specs.Kept.{Related};
ghost use Rattle.core_runs.specs.Starts.{FirstMomentsAreKept, RunsFromStartsAreKept};
ghost use Rattle.core_world.specs.Journals.{Journal};
ghost use Rattle.sector_world.specs.World.{World};

use crate::along::runs_are_kept;
use core_histories::first_moments_are_told;
use core_journals::logs_stand_good;
use core_line_steps::numbers_stay_new;
use core_lives::room_is_kept;
use core_log_writes::{logs_begin_open, marks_lie_where_operations_end};
use core_readings::{logs_begin_beside, seals_come_behind};
use core_recoveries::logs_stay_free_of_writes;
use core_world::first_moments_are_worlds;
use core_writes::acknowledged_writes_stay_so;
use opening_laws::{an_opening_begins_histories, each_start_is_an_opening};
use stop_laws::events_keep_sight;

/// At the first moment of each start, over a fresh disk and over that of an image whose sectors are of bytes, all stands beside: of a script that was read and may be asked.
pub fn first_moments_are_kept<Evidence>()
    ensures first { (moment_of : Evidence → State) (world_of : Evidence → World) (journal_of : Evidence → ℕ → Journal) → FirstMomentsAreKept (Related moment_of world_of journal_of) }
{
    each_start_is_an_opening();
    an_opening_begins_histories();
    first_moments_are_worlds();
    events_keep_sight();
    logs_stand_good();
    logs_begin_beside();
    logs_begin_open();
    seals_come_behind();
    room_is_kept();
    numbers_stay_new();
    marks_lie_where_operations_end();
    logs_stay_free_of_writes();
    acknowledged_writes_stay_so();
    first_moments_are_told();
}

/// So where each step keeps it, it is so at each moment of each run from a start.
pub fn runs_from_starts_are_kept<Evidence>()
    ensures runs { (moment_of : Evidence → State) (world_of : Evidence → World) (journal_of : Evidence → ℕ → Journal) → RunsFromStartsAreKept (Related moment_of world_of journal_of) }
{
    first_moments_are_kept::<Evidence>();
    runs_are_kept::<Evidence>();
}
