//! Laws of logs: that the end of a log is what it should be, that a replay made twice is one, and that a sealed log keeps its last records and nothing
//! of a dead session behind its end. It holds no code and stands on the meanings of logs.

ghost use Rattle.ring_definitions.specs.Ends.{TheEndIsTheGreatest, ZeroLogsEnd};
ghost use Rattle.ring_definitions.specs.Replays.{ReplayedTwiceIsOnce, ReplayLowersNoVersion, LogsAreZeroAfterwards};
ghost use Rattle.ring_definitions.specs.Sealing.{SealingKeepsTheLog, SealedLogsKeepTheirLastRecords};

/// The end of a log is the greatest number of which it and the 191 before it stand in their slots, and 0 where there is none. A log of zeros ends
/// at 255 and has no records.
pub fn a_log_has_one_end()
    ensures greatest { TheEndIsTheGreatest }
    ensures zeros { ZeroLogsEnd }
{}

/// Logs that are replayed twice are replayed once, a replay lowers no version, and it leaves all logs zero.
pub fn a_replay_made_twice_is_one()
    ensures once { ReplayedTwiceIsOnce }
    ensures versions { ReplayLowersNoVersion }
    ensures zero { LogsAreZeroAfterwards }
{}

/// While a dead session's log is being sealed, whichever of the sectors behind the gap have arrived, its end and its records stay. Once it is sealed,
/// no number stands above its end, and its records are those it had but for some that began in the oldest 64 numbers.
pub fn sealing_leaves_the_log()
    ensures keeps { SealingKeepsTheLog }
    ensures sealed { SealedLogsKeepTheirLastRecords }
{}
