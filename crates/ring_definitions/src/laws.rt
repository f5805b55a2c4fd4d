// Laws of rings and the logs that they write.
ghost use Rattle.ring_definitions.specs.RingRuns.{RingsReadBack, RingsEndWithin};
ghost use Rattle.ring_definitions.specs.RingSteps.{RingsBegin, RingsStep, RingsAreSame, GoodLogsReadBack, GoodLogsEndWithin, ArrivalsRaiseTheEnd};

/// Of a ring that goes on behind a sealed log, in every run of appends, issues, arrivals in any order, acknowledgements and reclaims: what its log reads as
/// is a suffix of a prefix of the records that the log held and those that were appended. The prefix has those that the log held, and of those appended the
/// ones whose last number isn't above the log's end; so it has every record whose last number is acknowledged with all before it. No appended record is
/// missing at its front that wasn't given up. The log's end is never below the numbers acknowledged without a gap, no slot has a number that wasn't issued,
/// and the numbers that wait follow those that are issued.
pub fn rings_read_back()
    ensures reads { RingsReadBack }
    ensures ends { RingsEndWithin }
{}

/// The same, a step at a time. A ring behind a sealed log is good together with its log; each call that may be made and each arrival leave a good pair, and
/// so is what has the same ring, sectors on their way, records and slots. A good pair's log reads as the run's does, and ends as it.
pub fn good_logs_stay_good()
    ensures begin { RingsBegin }
    ensures step { RingsStep }
    ensures same { RingsAreSame }
    ensures reads { GoodLogsReadBack }
    ensures ends { GoodLogsEndWithin }
{}

/// The end of a good log goes no way back where a sector of its ring arrives. So what once stands whole in it stays so.
pub fn arrivals_raise_the_end()
    ensures { ArrivalsRaiseTheEnd }
{}
