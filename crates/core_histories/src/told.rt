//! What happened is told on at each event of which the world's history tells. Each law is the contract of a public function.

ghost use Rattle.core_histories.specs.Told.{AnswersAreTold, ClosesAreTold, CommitsAreTold, FinishesAreTold};

use crate::answers::{answers_are_of_lines, who_owes_has_stalled};
use core_facts::blocks_stay_whole;
use core_laws::each_key_stands_once;

/// Where the world's history has what the laws of mounts, unmounts and syncs say, an answer is told on: that of a mount has its entry on both sides; before that of a sync or of an
/// unmount stands that all of the server's operations are covered; any other leaves the tree, and says of nothing that it is synced, but for an unmount after a stall. Of a close only
/// the history of sectors tells.
pub fn answers_and_closes_are_told()
    ensures answers { AnswersAreTold }
    ensures closes { ClosesAreTold }
{
    answers_are_of_lines();
    who_owes_has_stalled();
}

/// So is the end of a recovery, by the number that it says and by that up to which the world has operations durable. Premises are that the world's history is of lines; and that both
/// numbers keep the same since the server's last mount, which is a law of logs.
pub fn ends_of_recoveries_are_told()
    ensures ends { FinishesAreTold }
{}

/// And a Commit, where the world's history has the operation of its line: both are of one line, at its number's time, and the line says what its plan says over the logical sectors,
/// where each sector of bytes reads as the operation showed it. For what it reads is cached, all that is cached is of the one disk, and over that the line was finished.
pub fn commits_are_told()
    ensures commits { CommitsAreTold }
{
    answers_are_of_lines();
    each_key_stands_once();
    blocks_stay_whole();
}
