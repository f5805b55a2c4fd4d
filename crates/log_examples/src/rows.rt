//! Worked runs of rings and their logs.

ghost use Rattle.log_examples.specs.Deaths.{FiveDeathsLeaveNothing};
ghost use Rattle.log_examples.specs.Seals.{SealsComeBySectors};
ghost use Rattle.log_examples.specs.Torn.{SharedSectorsEndSeveral, TornRecordsAreNotRead};
ghost use Rattle.log_examples.specs.WrongRules.{ByANumberTooFew, ByTheFirstSector, WithoutTheLastWrite};

use ring_definitions::{good_logs_stay_good, sealing_leaves_the_log};

/// A record of which only some sectors stand isn't read, until the others come; and of records that end in one sector all are read once it stands with all before it.
pub fn torn_records_are_not_read()
    ensures torn { TornRecordsAreNotRead }
    ensures shared { SharedSectorsEndSeveral }
{
    good_logs_stay_good();
}

/// A seal whose sectors come one by one, by three recoverers, leaves the log as it was until its last sector stands, and then the same records behind a sealed end; a mount goes on
/// behind it.
pub fn seals_come_by_sectors()
    ensures { SealsComeBySectors }
{
    good_logs_stay_good();
    sealing_leaves_the_log();
}

/// After five deaths with a gap in the log, each behind a mount and before a seal, nothing whole is left of a record that was acknowledged in the first life.
pub fn five_deaths_leave_nothing()
    ensures { FiveDeathsLeaveNothing }
{
    good_logs_stay_good();
}

/// A seal without its last write lets a later record count that isn't read; a reading by 191 numbers misses the oldest record of a ring that is full; and a record that counts as soon as its
/// first sector stands isn't read.
pub fn wrong_rules_miss()
    ensures seal { WithoutTheLastWrite }
    ensures number { ByANumberTooFew }
    ensures sector { ByTheFirstSector }
{
    good_logs_stay_good();
}
