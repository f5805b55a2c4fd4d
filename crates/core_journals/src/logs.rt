//! What stands of each server's log on the disk, over every run. Each law is the contract of a public function with an empty body.

ghost use Rattle.core_journals.specs.Logs.{LogsBegin, LogsGoOn, LogsReadAsTheirJournals, LogsRestBehindTheOpening, LogsStand, LogsStandBehindTheOpening, NumbersStaySmall, SlotsAreTheJournalsOrSealed, TheFirstMomentIsFit};

use core_laws::{leases_last, the_opening_puts_the_disk};
use core_transcripts::each_line_is_answered_once;

/// Over every run over the logs of a disk, from an opening on, the log of each server stands on the disk as the life of its server has it: of one that is mounted a good log
/// of its ring, in which every write that may still come in time is on its way; of a dead one that log, as far as what was in flight came in time, and once its lease is over
/// perhaps some of its seal behind it, or all; of one that is off a sealed log. At each step it goes on by what happens to a ring and its log (a record is appended, a sector is
/// issued, arrives or is acknowledged, the oldest records are given up), or begins anew as its server mounts. A recovery that has read a log knows its end, and the log is sealed
/// once it ends.
///
/// Two things of the moments on the way are asked for: the numbers of the log are below 2^62, which `numbers_stay_small` shows; and, which isn't of the core alone, the record of a
/// line that is planned to its end may stand in a log. The first moment behind an opening is so.
pub fn logs_stand_good()
    ensures begin { LogsBegin }
    ensures step { LogsGoOn }
    ensures stand { LogsStand }
    ensures opening { LogsRestBehindTheOpening }
    ensures first { TheFirstMomentIsFit }
{
    leases_last();
    the_opening_puts_the_disk();
}

/// The log of a server that isn't off reads on the disk as its journal does: a prefix of the records that the log held at its server's mount and those appended since, but for some of the
/// first, where the prefix has every record that is acknowledged whole. That is so too while the log of a dead server is being sealed, by one recoverer or by several; once it is sealed,
/// which comes behind the replay, the records that began in its oldest 64 numbers may be gone.
/// And slot by slot it has the journal's blocks, or, where its server is dead, that of a number of its seal.
pub fn logs_read_as_their_journals()
    ensures reads { LogsReadAsTheirJournals }
    ensures slots { SlotsAreTheJournalsOrSealed }
{}

/// Of a script of fewer than 2^53 lines, no two of the same number, the numbers of each log stay below 2^62: they rise only where a line is answered, by 192 at most, the room of a
/// ring, and of a mount by 64 with the seal. So over every run each log stands as the life of its server has it, where the records of planned lines may stand in a log.
/// Behind an opening each log is at rest, and ends at 255.
pub fn numbers_stay_small()
    ensures small { NumbersStaySmall }
    ensures opening { LogsStandBehindTheOpening }
{
    leases_last();
    each_line_is_answered_once();
    the_opening_puts_the_disk();
}
