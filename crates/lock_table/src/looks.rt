// What is looked up over several locks at once.
ghost use Rattle.std.specs.Prelude.{◌≡◌, not, is_some, filter};
ghost use Rattle.std.specs.List.{list_any};
ghost use Rattle.std.specs.Map.{lookup};
ghost use Rattle.std.specs.Option.{option_or};
ghost use Rattle.ordered_map.specs.Chunks.{joined};
ghost use Rattle.frang_base.specs.declared.lock.LockId.TheVariants.{Segment};
ghost use Rattle.tree_definitions.specs.Numbers.{below};
ghost use Rattle.lock_definitions.specs.Order.{is_lock};
ghost use Rattle.lock_definitions.specs.Holders.{has_pressed, is_sole, next_among};
ghost use Rattle.lock_table.specs.Looks.{noted};

use crate::modes::is_sole;
use crate::table::LockTable;
use frang_base::{LockId, Mode, ServerId};
use lock_definitions::AskedFor;
use ordered_map::Chunk;

// Of the segments that were looked at, the first that no server holds, and the first.
#[derive(Clone, Copy)]
struct Found {
    unheld: Option<u32>,
    first: Option<u32>,
}

// The lock is among these.
fn has_lock(set: &[(LockId, Mode)], lock: LockId) -> bool
    ensures { result ≡ is_some (lookup (is_lock lock) set.now) }
{
    for (known, _) in set {
        if lock.cmp(known).is_eq() {
            return true;
        }
    }
    false
}

impl Found {
    // Nothing was looked at yet.
    fn nothing() -> Found
        ensures { result ≡ record { unheld = None; first = None } }
    {
        Found {
            unheld: None,
            first: None,
        }
    }

    // The same once a further segment was looked at.
    fn noting(self, segment: u32, is_unheld: bool) -> Found
        ensures { result ≡ noted self segment is_unheld }
    {
        let unheld = if is_unheld { Some(segment) } else { None };
        Found {
            unheld: self.unheld.or(unheld),
            first: self.first.or(Some(segment)),
        }
    }

    // The first that no server holds, else the first.
    fn best(self) -> Option<u32>
        ensures { result ≡ option_or self.unheld self.first }
    {
        self.unheld.or(self.first)
    }
}

impl LockTable {
    // The server holds the lock sole.
    fn is_sole(&self, server: ServerId, lock: LockId) -> bool
        ensures { result ≡ is_sole self.now.locks server.0 lock }
    {
        is_sole(self.held(server, lock))
    }

    /// The next segment that a server takes of those outside a set of locks: of the first `segments` segments whose locks aren't in the set the
    /// least that the server holds sole, else the least that no server holds, else the least. `None` exactly where the set has the locks of all.
    /// It takes no memory, and looks at each segment once.
    pub fn next_segment(
        &self,
        server: ServerId,
        segments: u32,
        set: &[(LockId, Mode)],
    ) -> Option<u32>
        ensures { result ≡ next_among self.now.locks server.0 (filter (λ segment. not (is_some (lookup (is_lock (Segment segment)) set.now))) (below segments)) }
    {
        let mut found = Found::nothing();
        for segment in 0..segments {
            let lock = LockId::Segment(segment);
            if !has_lock(set, lock) {
                if self.is_sole(server, lock) {
                    return Some(segment);
                }
                found = found.noting(segment, self.is_unheld(lock));
            }
        }
        found.best()
    }

    // Whether a server holds some lock of a piece sole.
    fn has_sole_piece(&self, server: ServerId, piece: &[(LockId, AskedFor)]) -> bool
        ensures { result ≡ list_any (λ entry. is_sole self.now.locks server.0 entry.0) piece.now }
    {
        piece.iter().any(|entry| self.is_sole(server, entry.0))
    }

    // The same of pieces that follow one another.
    fn has_sole(&self, server: ServerId, pieces: &[Chunk<LockId, AskedFor>]) -> bool
        ensures { result ≡ list_any (λ entry. is_sole self.now.locks server.0 entry.0) (joined pieces.now) }
    {
        for piece in pieces {
            if self.has_sole_piece(server, piece.entries()) {
                return true;
            }
        }
        false
    }

    /// Whether a server holds some lock sole that it is asked for. It takes no memory, and time in the number of the locks that it is asked for.
    pub fn has_pressed(&self, server: ServerId) -> bool
        ensures { result ≡ has_pressed self.now.locks server.0 }
    {
        self.has_sole(server, self.asked(server))
    }
}
