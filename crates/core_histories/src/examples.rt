//! A moment at which what is asked is met, and a few lines that are told twice.

ghost use Rattle.core_histories.specs.Examples.{DownIsTold, LinesAreToldTwice};
ghost use Rattle.core_histories.specs.Recovered.{ARecoveryIsTold};

use crate::told::answers_and_closes_are_told;
use core_world::first_moments_are_worlds;

/// Over a disk of zeros a server that is off has begun a sync: it is a moment of a run, of a script that was read, whose world is good, and of which nothing is told yet; its answer
/// `down` is told on. And of a stat before a mount, the mount, a second one, a sync, an unmount and a stat behind it, with their lines as they are said and the world after the mount,
/// the sync and the unmount, what happened is given, and is a telling.
pub fn a_few_lines_are_told()
    ensures down { DownIsTold }
    ensures twice { LinesAreToldTwice }
{
    first_moments_are_worlds();
    answers_and_closes_are_told();
}

/// A file is created over a fresh disk by what its line's plan comes to there, its server crashes, and the recovery of its log says that it keeps the create: what happened is given, beside the lines said and a
/// world with this history, and is a telling. The create and its line are of one line, and the recovery keeps it by both numbers.
pub fn a_recovery_is_told()
    ensures told { ARecoveryIsTold }
{}
