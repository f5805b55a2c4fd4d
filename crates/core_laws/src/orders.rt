//! What stands in order and once in the core of several servers: its enabled events, in the order of their table, and what the servers and the host keep by
//! lock, sector, slot and ticket. Each is the contract of a public function with an empty body. They stand on the definitions of the core and on its laws.

ghost use Rattle.core_laws.specs.Orders.{EventsAreInOrder, EnabledAscends, EnabledStandsOnce, TickWaits, TickComes, TickIsLast, CoresAreInOrder};

/// Over every run from an opening the list of enabled events ascends by the rows of their table and in a row by what they are of, from left to right: servers
/// ascending and the host behind them, locks in their order, sectors, tickets, slots and places ascending. So each event stands in it once, and no other list of the
/// same events ascends so.
pub fn enabled_events_ascend()
    ensures order { EventsAreInOrder }
    ensures ascends { EnabledAscends }
    ensures once { EnabledStandsOnce }
{}

/// Only a Tick waits for others: where it may happen, every other event that may is an arrival or a loss of a write whose server is Still or Dead, and it is the
/// last in the list. Where all that may happen is such, only the end, the gate or the clock's last moment keeps it back.
pub fn a_tick_waits_for_the_others()
    ensures waits { TickWaits }
    ensures comes { TickComes }
    ensures last { TickIsLast }
{}

/// Over every run from an opening each lock, sector, slot and ticket stands once in what is kept by it, ascending: the tickets in flight, each server's cached
/// sectors, those that stay wanted or are pending, the locks of a line's set, the slots that it or a recovery has read, the sectors that a recovery has looked
/// at, and those that the host has read of the tree. Each sector that a line has seen stands once.
pub fn each_key_stands_once()
    ensures order { CoresAreInOrder }
{}
