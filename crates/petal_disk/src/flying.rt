// A write in flight, and what it is of.
ghost use Rattle.std.specs.Prelude.{◌≡◌};
ghost use Rattle.std.specs.Box.{box_value, with_value};
ghost use Rattle.petal_disk.specs.Flying as words;
ghost use Rattle.petal_disk.specs.Flying.{covered, left};

use frang_base::{LockId, ServerId};
use frang_outside::Put;
use ordered_map::Edit;

/// What a write is of.
#[derive(Clone, Copy, Debug, PartialEq, Eq)]
pub enum Purpose {
    /// The sector of its server's log with this number.
    OfLog(u64),
    /// A sector in place, under this lock.
    InPlace(LockId),
    /// The recovery that its server makes.
    OfRecovery,
}

/// A write in flight: the put as it was issued, what it is of, and whether it is of the present mount of its server.
#[derive(Clone, Copy)]
pub struct Flying {
    pub put: Put,
    pub purpose: Purpose,
    pub present: bool,
}

// What it is of once it is under this lock, if it is in place.
fn under(purpose: Purpose, cover: LockId) -> Purpose
    ensures { result ≡ words.under cover purpose }
{
    match purpose {
        Purpose::InPlace(_) => Purpose::InPlace(cover),
        _ => purpose,
    }
}

// The write is under this lock from now on, if it is one in place of this server's present mount.
fn put_under(flying: &mut Flying, server: ServerId, cover: LockId)
    ensures { flying.new ≡ covered server.0 cover flying.old }
{
    if flying.put.server.0 == server.0 && flying.present {
        flying.purpose = under(flying.purpose, cover);
    }
}

// The write is of an earlier mount from now on, if it is this server's.
fn put_behind(flying: &mut Flying, server: ServerId)
    ensures { flying.new ≡ left server.0 flying.old }
{
    if flying.put.server.0 == server.0 {
        flying.present = false;
    }
}

// In place, under this lock.
fn is_under(purpose: Purpose, lock: LockId) -> bool
    ensures { result ≡ words.is_under lock purpose }
{
    match purpose {
        Purpose::InPlace(cover) => lock.cmp(&cover).is_eq(),
        _ => false,
    }
}

/// The write is of this server's present mount, and in place under this lock.
pub(crate) fn is_of(flying: &Flying, server: ServerId, lock: LockId) -> bool
    ensures { result ≡ words.is_of server.0 lock flying.now }
{
    flying.put.server.0 == server.0 && flying.present && is_under(flying.purpose, lock)
}

/// The edit of a box that puts its write under another lock.
#[derive(Clone, Copy)]
pub(crate) struct Cover {
    pub(crate) server: ServerId,
    pub(crate) cover: LockId,
}

impl Edit<Box<Flying>> for Cover {
    ghost edited = { λ edit kept. with_value kept (covered edit.server.0 edit.cover (box_value kept)) };

    fn edit(&self, kept: &mut Box<Flying>) {
        put_under(&mut **kept, self.server, self.cover);
    }
}

/// The edit of a box that leaves its write behind.
#[derive(Clone, Copy)]
pub(crate) struct Leave {
    pub(crate) server: ServerId,
}

impl Edit<Box<Flying>> for Leave {
    ghost edited = { λ edit kept. with_value kept (left edit.server.0 (box_value kept)) };

    fn edit(&self, kept: &mut Box<Flying>) {
        put_behind(&mut **kept, self.server);
    }
}
