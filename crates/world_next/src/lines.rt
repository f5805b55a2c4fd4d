// A server's line: Begin, Answer, Commit, Clear, Again, Ask, Fetch.
ghost use Rattle.world_next.specs.NoEvents.{NoneOfLine};
ghost use Rattle.world_next.specs.Picking.{PicksOf};

use hall_runs::Event;
use world_asks::Asking;

/// What a server's line does next.
pub(crate) fn line_event(asking: &Asking) -> Option<Event>
    ensures { PicksOf asking.now.world (λ c. NoneOfLine c asking.now.number) result }
{
    let a = asking.number();
    if asking.world().may_begin(a) {
        return Some(Event::Begin(a));
    }
    if asking.may_answer() {
        return Some(Event::Answer(a));
    }
    if asking.may_commit() {
        return Some(Event::Commit(a));
    }
    if let Some(block) = asking.cleared_next() {
        return Some(Event::Clear(a, block));
    }
    if asking.may_again() {
        return Some(Event::Again(a));
    }
    if let Some((lock, mode)) = asking.asked_next() {
        return Some(Event::Ask(a, lock, mode));
    }
    match asking.first_fetch() {
        Some(sector) => Some(Event::Fetch(a, sector)),
        None => None,
    }
}
