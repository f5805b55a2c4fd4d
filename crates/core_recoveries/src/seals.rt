//! Writes of a seal that arrive in time, or fail. Each law is the contract of a public function.

ghost use Rattle.core_recoveries.specs.Seals.{NoneInLogsFirst, NoneInLogsStay, SealsArrive, SealsFail};

/// From each moment of a run the arrival in time of a write of a seal is none, and its failure is Fail of its server, or none where that is the host: no tie but that of the journals is of the
/// logs. Premises are that the world has nothing in flight in a log, and how the journals go on.
pub fn seals_are_of_journals()
    ensures arrive { SealsArrive }
    ensures fail { SealsFail }
{}

/// At first the world has nothing in flight in a log, and every event of the theorem on sectors keeps it so but an issue there. So it may stand beside what every event keeps along runs.
pub fn logs_stay_free_of_writes()
    ensures first { NoneInLogsFirst }
    ensures stay { NoneInLogsStay }
{}
