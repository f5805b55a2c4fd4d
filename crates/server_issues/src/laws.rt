// How the wanted writes of one sector lie over one another.
ghost use Rattle.server_issues.specs.Laws.{TheLogCountsFirst};

/// At each sector the write of the log counts before one in place, and that before one of a recovery, whatever the regions of the disk are.
pub fn the_log_counts_first()
    ensures found { TheLogCountsFirst }
{}
