// Why a line may not be said.
use crate::phases::{Debt, Party, Phase};
use frang_base::ServerId;

/// Why a line may not be said after those before it.
#[derive(Clone, Copy, Debug, PartialEq, Eq)]
pub enum Breach {
    /// The end was said, or a halt answered.
    Over,
    /// Lines of the tree have been said.
    TreeBegun,
    /// A party answers that has no line left.
    NoLineLeft {
        who: ServerId,
    },
    /// A party answers a line that isn't its next one.
    NotNext {
        who: ServerId,
        next: u32,
    },
    /// A line waits that has to be answered before.
    Waits {
        line: u32,
    },
    /// A line of the host is answered otherwise than `ok`.
    HostReply,
    /// A server answers what it may not, by what is told of it.
    Reply {
        who: ServerId,
        phase: Phase,
        debt: Debt,
    },
    /// A server dies that is neither up nor stalled.
    NotMounted {
        who: ServerId,
    },
    /// A server dies, and nothing that was said calls for it.
    Uncalled {
        who: ServerId,
    },
    /// A server is recovered, or its recovery done, that isn't dead.
    NotDead {
        who: ServerId,
    },
    /// A server recovers that isn't up.
    NotUp {
        who: ServerId,
    },
    /// A recovery is done that hasn't begun.
    NotBegun {
        who: ServerId,
    },
    /// A lease is renewed of a server that isn't stalled.
    NotStalled {
        who: ServerId,
    },
    /// The tree is said while a server is stalled or dead.
    Unsettled {
        who: ServerId,
    },
    /// The tree has another line here.
    OtherNode,
    /// The tree has more lines, or fewer.
    OtherEnd,
    /// A line that no run says.
    Never,
}

impl Breach {
    /// Why a server may not give a reply, by what is told of it.
    pub fn of_reply(who: ServerId, party: Party) -> Breach {
        Breach::Reply {
            who,
            phase: party.phase,
            debt: party.debt,
        }
    }
}
