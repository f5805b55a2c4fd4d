// How a recovery goes on.
ghost use Rattle.std.specs.Prelude.{◌≡◌, ◌&&◌, if◌then◌else◌};
ghost use Rattle.core_definitions.specs.Logs.{is_none};
ghost use Rattle.recovery_demon.specs.Replays.{next_first, next_later, next_stage, next_waiting};

use crate::stage::{Course, Stage};
use frang_base::Block;
use ordered_map::OrderedMap;
use std::mem;

/// Whether there are no entries.
pub(crate) fn is_empty<K: Ord + Copy + Drop, V: Drop>(map: &OrderedMap<K, V>) -> bool
    ensures { result ≡ is_none map.now.entries }
{
    map.first().is_none()
}

/// Goes on to the next stage, where nothing is to look at and nothing waits or is issued.
pub(crate) fn advance(
    course: &mut Course,
    is_sealed: bool,
    looks: &OrderedMap<u64, ()>,
    flying: &OrderedMap<u64, Block>,
)
    ensures stage { course.new.stage ≡ (if is_none looks.now.entries && is_none course.old.waiting.entries && is_none flying.now.entries then next_stage course.old.stage is_sealed else course.old.stage) }
    ensures waiting { course.new.waiting.entries ≡ (if is_none looks.now.entries && is_none course.old.waiting.entries && is_none flying.now.entries then next_waiting course.old.stage is_sealed course.old.waiting.entries course.old.later.entries course.old.first.entries else course.old.waiting.entries) }
    ensures later { course.new.later.entries ≡ (if is_none looks.now.entries && is_none course.old.waiting.entries && is_none flying.now.entries then next_later course.old.stage is_sealed course.old.waiting.entries course.old.later.entries else course.old.later.entries) }
    ensures first { course.new.first.entries ≡ (if is_none looks.now.entries && is_none course.old.waiting.entries && is_none flying.now.entries then next_first course.old.stage course.old.waiting.entries course.old.first.entries else course.old.first.entries) }
{
    if is_empty(looks) && is_empty(&course.waiting) && is_empty(flying) {
        go_on(course, is_sealed);
    }
}

// Goes on to the next stage.
fn go_on(course: &mut Course, is_sealed: bool)
    ensures stage { course.new.stage ≡ next_stage course.old.stage is_sealed }
    ensures waiting { course.new.waiting.entries ≡ next_waiting course.old.stage is_sealed course.old.waiting.entries course.old.later.entries course.old.first.entries }
    ensures later { course.new.later.entries ≡ next_later course.old.stage is_sealed course.old.waiting.entries course.old.later.entries }
    ensures first { course.new.first.entries ≡ next_first course.old.stage course.old.waiting.entries course.old.first.entries }
{
    match course.stage {
        Stage::Replay => {
            if is_sealed {
                course.stage = Stage::Over;
            } else {
                mem::swap(&mut course.waiting, &mut course.later);
                course.stage = Stage::LaterSeals;
            }
        }
        Stage::LaterSeals => {
            mem::swap(&mut course.waiting, &mut course.first);
            course.stage = Stage::FirstSeal;
        }
        Stage::FirstSeal => course.stage = Stage::Over,
        Stage::Over => {}
    }
}
