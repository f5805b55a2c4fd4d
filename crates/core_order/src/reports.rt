//! What recoveries say that they keep, over every run. Each law is the contract of a public function.

ghost use Rattle.core_order.specs.Reports.{RecoveriesAlwaysSayTheGreatest, RecoveriesSayTheGreatest};

use core_journals::recoveries_report_the_log_as_it_stood;
use headline_definitions::each_prefix_is_witnessed;

/// Over every run over the logs of a disk each recovery says the greatest operation that its log had on the disk where it last began, 0 where there was none: also one that the host makes, a
/// second one of a log whose first recoverer died, and one of a log that was sealed already. So it is at every prefix of what is witnessed. Nothing is asked of the disk or of the script.
pub fn recoveries_say_the_greatest()
    ensures runs { RecoveriesSayTheGreatest }
    ensures prefixes { RecoveriesAlwaysSayTheGreatest }
{
    recoveries_report_the_log_as_it_stood();
    each_prefix_is_witnessed();
}
