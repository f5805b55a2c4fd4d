//! What a line is planned over. Each law is the contract of a public function with an empty body.

ghost use Rattle.core_commits.specs.Standing.{SightsAreOfTheDisk};

/// Where no bitmap of its set lacks, what a line is planned over is of the one disk with whole sectors: the cached sectors that it may use, the bitmaps of the segments in its set, and whether
/// these are all.
pub fn sights_are_of_one_disk()
    ensures disk { SightsAreOfTheDisk }
{}
