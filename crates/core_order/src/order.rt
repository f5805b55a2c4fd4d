//! The order of writes, over every run. Each law is the contract of a public function.

ghost use Rattle.core_order.specs.Turns.{PutsAreInTurn};
ghost use Rattle.core_order.specs.Worlds.{WritesAreAlwaysInOrder, WritesAreInOrder};

use crate::starting::the_other_logs_stay_empty;
use core_facts::stale_writes_are_late;
use core_journals::logs_read_as_their_journals;
use core_laws::leases_last;
use core_readings::writes_are_named;

/// Over every run over the logs of a disk each put that is written is on its server's own behalf, or on that of one whose recovery this server began last and which isn't done; one into a log is
/// on that log's behalf; and no server puts anything from the beginning of its recovery to its next mount. Nothing is asked of the disk or of the script.
pub fn puts_are_in_turn()
    ensures turns { PutsAreInTurn }
{
    leases_last();
    stale_writes_are_late();
}

/// Where each moment of a run has a world beside it, and each step is events that lead from one to the next, with journals that go on, what is witnessed keeps the whole order of writes, at
/// every prefix: each put of a sector that is metadata raises its version, too, and a record that stands in the log on whose behalf it is names it with that version. What is metadata has a
/// version by operations that are on the disk, which no recovery removes; so it has one when it is put.
pub fn writes_are_in_order()
    ensures order { WritesAreInOrder }
    ensures prefixes { WritesAreAlwaysInOrder }
{
    leases_last();
    stale_writes_are_late();
    writes_are_named();
    the_other_logs_stay_empty();
    logs_read_as_their_journals();
}
