// The least pair of servers whose lists clash at a lock.
ghost use Rattle.std.specs.Prelude.{◌≡◌, ◌<◌, ℕ, Bool, true, false, is_some, IfSome, None, nat_lt, ◌&&◌};
ghost use Rattle.frang_base.specs.declared.lock.LockId.TheVariants.{Log};
ghost use Rattle.lock_rebuild.specs.Lists.{listed_expiry, listed_mode, mode_clash, has_log_of, lists_clash, HasNoneBelow};

use crate::lists::{listed_expiry, listed_mode, mode_clash};
use frang_base::limits::LOGS;
use frang_base::{LockId, Mode, ServerId};
use lock_definitions::ClerkLocks;

// Whether the lists of a server have the log that the lock is of.
fn has_log(clerks: &[ClerkLocks], lock: LockId, server: ServerId) -> bool
    ensures { result ≡ has_log_of clerks.now lock server.0 }
{
    match lock {
        LockId::Log(dead) => listed_expiry(clerks, server, dead).is_some(),
        LockId::Segment(_) | LockId::Node(_) => false,
    }
}

// Whether a mode clashes with that in which the lists of a server have a lock.
fn clashes_with(mode: Option<Mode>, clerks: &[ClerkLocks], lock: LockId, server: ServerId) -> bool
    ensures { result ≡ mode_clash mode (listed_mode clerks.now server.0 lock) }
{
    match mode {
        Some(_) => mode_clash(mode, listed_mode(clerks, server, lock)),
        None => false,
    }
}

// The least server whose lists clash at a lock with those of this one.
fn clash_with(clerks: &[ClerkLocks], lock: LockId, first: ServerId) -> Option<ServerId>
    ensures least { IfSome result (λ second. (lists_clash clerks.now lock first.0 second.0 ≡ true) × HasNoneBelow clerks.now lock first.0 second.0) }
    ensures none { result ≡ None → HasNoneBelow clerks.now lock first.0 LOGS }
{
    let mode = listed_mode(clerks, first, lock);
    let is_log = has_log(clerks, lock, first);
    for number in 0..LOGS as u16 {
        let second = ServerId(number as u8);
        if second.0 != first.0
            && (clashes_with(mode, clerks, lock, second)
                || is_log && has_log(clerks, lock, second))
        {
            return Some(second);
        }
    }
    None
}

/// The servers whose lists clash at a lock, of these pairs the one with the least first and then the least second.
pub(crate) fn clash_at(clerks: &[ClerkLocks], lock: LockId) -> Option<(ServerId, ServerId)>
    ensures least { IfSome result (λ pair. (lists_clash clerks.now lock pair.0.0 pair.1.0 ≡ true) × HasNoneBelow clerks.now lock pair.0.0 pair.1.0 × ((a : ℕ) → a < pair.0.0 → HasNoneBelow clerks.now lock a LOGS)) }
    ensures none { result ≡ None → (a : ℕ) → a < LOGS → HasNoneBelow clerks.now lock a LOGS }
{
    for number in 0..LOGS as u16 {
        let first = ServerId(number as u8);
        if let Some(second) = clash_with(clerks, lock, first) {
            return Some((first, second));
        }
    }
    None
}
