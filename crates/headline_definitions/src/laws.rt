// That the headline is said of what it means: over the logs of a disk its words are the disk's, and what is witnessed tells a run's lines and its disk.
ghost use Rattle.headline_definitions.specs.Prefixes.{EachPrefixIsWitnessed};
ghost use Rattle.headline_definitions.specs.Meaning.{GreatestIsTheDisks, ReplayedIsTheDisks, WitnessedTellsTheDisk, WitnessedTellsTheLines};

/// Over the logs of a disk the greatest operation of a log and the replayed disk are those of the disk's own definitions.
pub fn the_logs_of_a_disk_are_meant()
    ensures greatest { GreatestIsTheDisks }
    ensures replayed { ReplayedIsTheDisks }
{}

/// What is witnessed along a run tells its lines, and makes its disk.
pub fn what_is_witnessed_tells_the_run()
    ensures lines { WitnessedTellsTheLines }
    ensures disk { WitnessedTellsTheDisk }
{}

/// Each prefix of what is witnessed along a run is what is witnessed along a run, which goes on to that run's end: a step adds one at most. So what is shown of all
/// runs at their ends holds at every prefix.
pub fn each_prefix_is_witnessed()
    ensures through { EachPrefixIsWitnessed }
{}
