// Modes in which locks are needed and held.
ghost use Rattle.std.specs.Prelude.{◌≡◌, not};
ghost use Rattle.lock_definitions.specs.Calls.{serves};
ghost use Rattle.set_definitions.specs.Sets.{is_served, with_mode};

use frang_base::{LockId, Mode, ServerId};
use lock_table::LockTable;

/// Whether a lock held so serves one who wants it so.
pub fn serves(held: Option<Mode>, mode: Mode) -> bool
    ensures { result ≡ serves held mode }
{
    match held {
        None => false,
        Some(Mode::Sole) => true,
        Some(Mode::Shared) => mode == Mode::Shared,
    }
}

/// Whether a server holds a lock neither in the needed mode nor sole.
pub(crate) fn is_unserved(table: &LockTable, server: ServerId, need: &(LockId, Mode)) -> bool
    ensures { result ≡ not (is_served table.now.locks server.0 need.now) }
{
    !serves(table.held(server, need.0), need.1)
}

/// The mode in which a lock is needed that was needed so before.
pub fn with_mode(before: Option<Mode>, mode: Mode) -> Mode
    ensures { result ≡ with_mode before mode }
{
    match before {
        Some(Mode::Sole) => Mode::Sole,
        Some(Mode::Shared) => mode,
        None => mode,
    }
}
