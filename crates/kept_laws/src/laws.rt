//! What recoveries keep, and what is legal.

ghost use Rattle.kept_laws.specs.Closed.{ClosedServersAreLegal, ClosedServersKeep};
ghost use Rattle.kept_laws.specs.Hidden.{HiddenDeedsMayGo, UnmetDeedsAreHidden};
ghost use Rattle.kept_laws.specs.Keeping.{HistoriesKeepWhatIsKnown, MomentsKeepWhatIsKnown, StopsKeepWhatIsKnown};
ghost use Rattle.kept_laws.specs.Legal.{MomentsAreLegal, StopsAreLegal};
ghost use Rattle.kept_laws.specs.Lines.{WhatLinesTellIsKept};
ghost use Rattle.kept_laws.specs.Telling.{BlocksAreCounted, NumbersMayBeTold};

/// Along each legal history of lines with new numbers, of the operations of a server above a number: where no other server met a lock that one of them had alone, and no
/// entry of the server says after one that it is synced, no later deed shows anything of them or makes any of them sure. Then a recovery of this server's log,
/// by the greatest number of its records, removes no entry that is seen or synced.
pub fn deeds_hide_what_is_removed()
    ensures hidden { UnmetDeedsAreHidden }
    ensures kept { HiddenDeedsMayGo }
{}

/// No recovery of a history that is told twice removes an entry that is seen or synced, where none removed on the side of sectors what was seen, met or synced. So it is
/// at each moment of servers, of the history as it is, and of that with the recoveries of all logs.
pub fn recoveries_keep_what_is_known()
    ensures histories { HistoriesKeepWhatIsKnown }
    ensures moments { MomentsKeepWhatIsKnown }
    ensures stops { StopsKeepWhatIsKnown }
{}

/// Along each legal history of lines with new numbers at most so many blocks are or were a directory's as the opening counts and the entries grew, and as many at
/// least as the tree's directories have. That is the number that an entry tells where it is refused for want of blocks.
pub fn numbers_may_be_told()
    ensures counted { BlocksAreCounted }
    ensures told { NumbersMayBeTold }
{}

/// At each moment of servers whose operations are lines the history is legal by the rules, as it is, and with the recoveries of all logs.
pub fn histories_are_legal()
    ensures moments { MomentsAreLegal }
    ensures stops { StopsAreLegal }
{}

/// Where the lines said tell the history of the tree's side, and of each server whether it is off as the world does: the live history and the one that a stop leaves by
/// the lines keep what must be kept and are legal.
pub fn what_lines_tell_is_kept()
    ensures lines { WhatLinesTellIsKept }
{}

/// Where some servers were closed, which are up by the lines said: where the history with the recoveries of the others keeps what must be kept, and is legal, so is that with
/// a recovery more of each closed one, which removes nothing.
pub fn closed_servers_keep_and_are_legal()
    ensures kept { ClosedServersKeep }
    ensures legal { ClosedServersAreLegal }
{}
