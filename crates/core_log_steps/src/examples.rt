//! A run at which what the laws ask is met.

ghost use Rattle.core_log_steps.specs.Examples.{EmptyRunsStand, StaysReplayed};

use crate::seals::replayed_logs_stay_replayed;
use crate::worlds::logs_stand_beside_worlds;
use core_lives::a_root_is_read;

/// At the first moment over a disk of zeros, without lines, the logs stand and seals come behind the replay; the host reads the root's inode, and then they do too. And the log of a server that
/// mounted, died, and whose lease is over stays replayed at a tick.
pub fn an_empty_run_stands()
    ensures run { EmptyRunsStand }
    ensures fallen { StaysReplayed }
{
    a_root_is_read();
    logs_stand_beside_worlds();
    replayed_logs_stay_replayed();
}
