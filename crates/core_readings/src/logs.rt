//! What recoveries rest on of the logs. Each law is the contract of a public function.

ghost use Rattle.core_readings.specs.Logs.{FinishedLogsRest, LastLoadsReadAs, LogsBeginBeside, LogsAreOpen, ReplaysAreTheWorlds, RestingIsReplayed, SealsAreIssuedBehind, SealsBeginBehind, SealsStayBehind, WritesAreNamed};

use core_facts::slots_read_are_the_disks;
use core_journals::logs_stand_good;
use core_laws::leases_last;

/// The log of a dead server whose lease isn't over stands on the disk as its journal has it.
pub fn logs_are_open()
    ensures { LogsAreOpen }
{}

/// Once the last slot of a log is read what was read replays as the records of the theorem on sectors, whether nothing of a seal stands, some of it, or all: behind a seal all is in
/// place.
pub fn last_loads_are_read()
    ensures { LastLoadsReadAs }
{
    slots_read_are_the_disks();
}

/// Where a recovery ends its log is sealed, and what stands in it is in place.
pub fn finished_logs_rest()
    ensures { FinishedLogsRest }
{
    leases_last();
}

/// What a replay leaves as it is is in place.
pub fn resting_is_replayed()
    ensures { RestingIsReplayed }
{}

/// A seal comes behind the replay: where something of one stands in a dead server's log, or is on its way in time, all that is to be replayed is in place. So it is at first, where no
/// server is mounted, and each step keeps it: what stands more was on its way, and what is issued of a seal is wanted only once each look is made and each write of the replay
/// acknowledged. Asked of the step is that journals change with the disk alone, that of a dead server whose lease is over not at all, and that what is in place of its log stays so.
pub fn seals_come_behind()
    ensures issued { SealsAreIssuedBehind }
    ensures begin { SealsBeginBehind }
    ensures stay { SealsStayBehind }
{
    leases_last();
}

/// The disk with all logs replayed, but for the logs themselves, is at each sector with a version that of the theorem on sectors: log by log what stands in the log makes of a sector what the
/// records make that are to be replayed, whether its server is mounted, dead, with something of a seal behind its log or not, or off. Asked is that no other logs have records, and that
/// what is to be replayed is of regions that a replay changes.
pub fn replays_are_the_worlds()
    ensures { ReplaysAreTheWorlds }
{}

/// Behind an opening each log stands as any journal has it, since no server is mounted: so what these laws ask of logs is met there.
pub fn logs_begin_beside()
    ensures { LogsBeginBeside }
{
    logs_stand_good();
}

/// Each write of a sector with a version that may still come in time is named, with its version, by a record that stands on the disk in the log on whose behalf it is: in that of its own
/// server, or of a dead one that is recovered, whose log isn't sealed then.
pub fn writes_are_named()
    ensures { WritesAreNamed }
{}
