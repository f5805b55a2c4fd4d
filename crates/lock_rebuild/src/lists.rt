// What lists say of a lock or a log.
ghost use Rattle.std.specs.Prelude.{◌≡◌};
ghost use Rattle.lock_rebuild.specs.Lists.{stronger, mode_in, expiry_in, listed_mode, listed_expiry, mode_clash};

use frang_base::{LockId, Mode, ServerId};
use lock_definitions::ClerkLocks;

// Of two modes the one that keeps more from others.
fn stronger(one: Option<Mode>, other: Option<Mode>) -> Option<Mode>
    ensures { result ≡ stronger one other }
{
    match (one, other) {
        (None, _) => other,
        (Some(Mode::Sole), _) | (Some(Mode::Shared), None) => one,
        (Some(Mode::Shared), Some(_)) => other,
    }
}

// The mode in which a list has a lock.
fn mode_in(list: &[(LockId, Mode)], lock: LockId) -> Option<Mode>
    ensures { result ≡ mode_in list.now lock }
{
    let mut found = None;
    for (listed, mode) in list {
        if lock.cmp(listed).is_eq() {
            found = stronger(found, Some(*mode));
        }
    }
    found
}

/// The mode in which a server holds a lock, as its lists say.
pub(crate) fn listed_mode(clerks: &[ClerkLocks], server: ServerId, lock: LockId) -> Option<Mode>
    ensures { result ≡ listed_mode clerks.now server.0 lock }
{
    let mut found = None;
    for clerk in clerks {
        if clerk.server.0 == server.0 {
            found = stronger(found, mode_in(clerk.held.as_slice(), lock));
        }
    }
    found
}

// The expiry with which a list has a log, the last where it has it more than once.
fn expiry_in(list: &[(ServerId, u64)], dead: u8) -> Option<u64>
    ensures { result ≡ expiry_in list.now dead }
{
    let mut found = None;
    for (listed, expiry) in list {
        if listed.0 == dead {
            found = Some(*expiry);
        }
    }
    found
}

/// The expiry with which a party has a log, as its lists say.
pub(crate) fn listed_expiry(clerks: &[ClerkLocks], party: ServerId, dead: u8) -> Option<u64>
    ensures { result ≡ listed_expiry clerks.now party.0 dead }
{
    let mut found = None;
    for clerk in clerks {
        if clerk.server.0 == party.0 {
            found = expiry_in(clerk.logs.as_slice(), dead).or(found);
        }
    }
    found
}

/// Whether both hold a lock, and one of the modes is sole.
pub(crate) fn mode_clash(one: Option<Mode>, other: Option<Mode>) -> bool
    ensures { result ≡ mode_clash one other }
{
    match (one, other) {
        (None, _) | (_, None) => false,
        (Some(Mode::Shared), Some(Mode::Shared)) => false,
        (Some(Mode::Sole), Some(_)) | (Some(_), Some(Mode::Sole)) => true,
    }
}
