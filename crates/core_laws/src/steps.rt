//! What the list of the enabled events of the core has, and what holds over every run of it, step by step. Each law is the contract of a public function with an
//! empty body. They stand on the definitions of the core and on the laws of lock tables.

ghost use Rattle.core_laws.specs.Laws.{EnabledIsExact, ClockRises, NothingFollowsTheEnd, HoldersAreCompatible, TicketsStandOnce, SectorsStandOnce};

/// The list of enabled events has exactly those that may happen.
pub fn enabled_lists_what_may_happen()
    ensures exact { EnabledIsExact }
{}

/// No step turns the clock back.
pub fn the_clock_only_rises()
    ensures rises { ClockRises }
{}

/// Once it is over no step is made.
pub fn nothing_follows_the_end()
    ensures last { NothingFollowsTheEnd }
{}

/// Over every run from an opening no lock is held sole by one server and held in any mode by another.
pub fn holders_stay_compatible()
    ensures compatible { HoldersAreCompatible }
{}

/// Over every run from an opening no two writes in flight have the same ticket, and no two are of the same sector.
pub fn writes_stand_once()
    ensures tickets { TicketsStandOnce }
    ensures sectors { SectorsStandOnce }
{}
