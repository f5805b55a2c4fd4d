//! A moment that meets what is asked, and wrong rules.

ghost use Rattle.kept_examples.specs.Meeting.{WhomNobodyMeets};
ghost use Rattle.kept_examples.specs.Moments.{AMomentMeetsAll};
ghost use Rattle.kept_examples.specs.WrongRules.{
  HeldSegmentsAreWrong,
  IsGreatestEver,
  IsUnsureUnmount,
  SharedIsWrong,
  UnseenReadIsWrong,
  UntouchedLinkIsWrong,
};

/// Whom nobody met as computed, nobody met by the theorem on sectors.
pub fn whom_nobody_meets()
    ensures unmet { WhomNobodyMeets }
{}

/// There is a moment of two servers over a fresh disk, with a sync, a death and a recovery, of which all premises of the laws hold.
pub fn a_moment_meets_what_is_asked()
    ensures moment { AMomentMeetsAll }
{}

/// By each of four wrong rules on locks nobody met what a recovery removes, and yet another server saw it: a lock that is shared where a node is changed, a read and a
/// followed link that use no lock of what they go through, and an answer for want of room by the held segments alone. By the right locks somebody met it.
pub fn wrong_locks_are_seen()
    ensures shared { SharedIsWrong }
    ensures read { UnseenReadIsWrong }
    ensures link { UntouchedLinkIsWrong }
    ensures room { HeldSegmentsAreWrong }
{}

/// Where an unmount made nothing sure, a recovery could remove what it synced.
pub fn wrong_unmounts_are_synced()
    ensures unmount { IsUnsureUnmount }
{}

/// By the greatest number ever used a recovery would leave an entry whose record the log lost.
pub fn wrong_numbers_leave_more()
    ensures number { IsGreatestEver }
{}
