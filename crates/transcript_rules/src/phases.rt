// The rules for one party, by what the lines said tell of it.
ghost use Rattle.std.specs.Prelude.{◌≡◌, ◌&&◌, ◌||◌, not};
ghost use Rattle.tree_definitions.specs.Apply.{is_path_op};
ghost use Rattle.tree_definitions.specs.History.{may_be_ok};
ghost use Rattle.tree_definitions.specs.Touched.{is_mounted, is_ok, is_stall, is_unmount};
ghost use Rattle.tree_definitions.specs.Transcript.{after_answer, after_asked, after_death, after_renewal, asks_change, asks_crash, calls_death, debt_after, debt_of_death, is_already, is_crash, is_dead, is_down, is_expired, is_in_mount, is_io, is_mount, is_off, is_own, is_settled, is_stalled, is_up, may_answer, may_answer_by, may_change, may_mount, may_owe, may_refuse, phase_after};
ghost use Rattle.transcript_rules.specs.Parties.{debt_of, phase_of, state_by};

use frang_base::{Op, Reply, What};

/// The phase of a server.
#[derive(Clone, Copy, Debug, PartialEq, Eq)]
pub enum Phase {
    Off,
    Up,
    Stalled,
    Dead,
}

/// Whether a server owes `expired`.
#[derive(Clone, Copy, Debug, PartialEq, Eq)]
pub enum Debt {
    Free,
    Owes,
    MayOwe,
}

/// A party: what the lines said tell of it, whether it may have something to lose, and a place of the script before which none of its lines
/// waits for an answer.
#[derive(Clone, Copy)]
pub struct Party {
    pub phase: Phase,
    pub debt: Debt,
    pub may_die: bool,
    pub just_died: bool,
    pub under_recovery: bool,
    pub dirty: bool,
    pub next: usize,
}

pub fn is_up(phase: Phase) -> bool
    ensures { result ≡ is_up (phase_of phase) }
{
    matches!(phase, Phase::Up)
}

pub fn is_stalled(phase: Phase) -> bool
    ensures { result ≡ is_stalled (phase_of phase) }
{
    matches!(phase, Phase::Stalled)
}

pub fn is_dead(phase: Phase) -> bool
    ensures { result ≡ is_dead (phase_of phase) }
{
    matches!(phase, Phase::Dead)
}

pub fn is_in_mount(phase: Phase) -> bool
    ensures { result ≡ is_in_mount (phase_of phase) }
{
    matches!(phase, Phase::Up | Phase::Stalled)
}

pub fn is_settled(phase: Phase) -> bool
    ensures { result ≡ is_settled (phase_of phase) }
{
    matches!(phase, Phase::Off | Phase::Up)
}

pub fn is_mounted(reply: &Reply) -> bool
    ensures { result ≡ is_mounted reply.now }
{
    matches!(reply, Reply::Mounted)
}

pub fn is_ok(reply: &Reply) -> bool
    ensures { result ≡ is_ok reply.now }
{
    matches!(reply, Reply::Ok)
}

fn is_expired(reply: &Reply) -> bool
    ensures { result ≡ is_expired reply.now }
{
    matches!(reply, Reply::Expired)
}

fn is_already(reply: &Reply) -> bool
    ensures { result ≡ is_already reply.now }
{
    matches!(reply, Reply::Already)
}

fn is_down(reply: &Reply) -> bool
    ensures { result ≡ is_down reply.now }
{
    matches!(reply, Reply::Down)
}

fn is_io(reply: &Reply) -> bool
    ensures { result ≡ is_io reply.now }
{
    matches!(reply, Reply::Io)
}

fn is_path_op(op: &Op) -> bool
    ensures { result ≡ is_path_op op.now }
{
    !matches!(
        op,
        Op::Sync
            | Op::Mount
            | Op::Unmount
            | Op::Crash
            | Op::CrashAt { .. }
            | Op::CutAt { .. }
            | Op::Stall
    )
}

fn is_mount(op: &Op) -> bool
    ensures { result ≡ is_mount op.now }
{
    matches!(op, Op::Mount)
}

fn is_unmount(op: &Op) -> bool
    ensures { result ≡ is_unmount op.now }
{
    matches!(op, Op::Unmount)
}

fn is_stall(op: &Op) -> bool
    ensures { result ≡ is_stall op.now }
{
    matches!(op, Op::Stall)
}

fn is_crash(op: &Op) -> bool
    ensures { result ≡ is_crash op.now }
{
    matches!(op, Op::Crash)
}

fn calls_death(op: &Op) -> bool
    ensures { result ≡ calls_death op.now }
{
    matches!(op, Op::CrashAt { .. } | Op::CutAt { .. })
}

fn may_change(op: &Op) -> bool
    ensures { result ≡ may_change op.now }
{
    matches!(
        op,
        Op::Create { .. }
            | Op::Mkdir { .. }
            | Op::Link { .. }
            | Op::Symlink { .. }
            | Op::Unlink { .. }
            | Op::Rmdir { .. }
            | Op::Rename { .. }
            | Op::Write { .. }
            | Op::Fill { .. }
            | Op::Truncate { .. }
    )
}

fn may_be_ok(op: &Op) -> bool
    ensures { result ≡ may_be_ok op.now }
{
    matches!(
        op,
        Op::Sync | Op::Unmount | Op::Crash | Op::CrashAt { .. } | Op::CutAt { .. } | Op::Stall
    )
}

/// Whether a line asks a crash.
pub fn asks_crash(what: &What) -> bool
    ensures { result ≡ asks_crash what.now }
{
    match what {
        What::Server(op) => is_crash(op),
        What::Host(_) => false,
    }
}

fn asks_change(what: &What) -> bool
    ensures { result ≡ asks_change what.now }
{
    match what {
        What::Server(op) => may_change(op),
        What::Host(_) => false,
    }
}

// A reply of an operation that isn't a crash, where it is none of those that any operation may get.
fn is_own_of(op: &Op, reply: &Reply) -> bool
    ensures { result ≡ (is_path_op op.now || (may_be_ok op.now && is_ok reply.now)) }
{
    is_path_op(op) || (may_be_ok(op) && is_ok(reply))
}

// Whether a reply is the operation's own.
fn is_own(op: &Op, reply: &Reply) -> bool
    ensures { result ≡ is_own op.now reply.now }
{
    match (reply, op) {
        (Reply::Down | Reply::Expired | Reply::Io | Reply::Already | Reply::Mounted, _) => false,
        (_, Op::Crash) => false,
        _ => is_own_of(op, reply),
    }
}

fn may_mount(phase: Phase, just_died: bool, faulted: bool, reply: &Reply) -> bool
    ensures { result ≡ may_mount (phase_of phase) just_died faulted reply.now }
{
    let off = matches!(phase, Phase::Off);
    (off && is_mounted(reply))
        || ((is_up(phase) || just_died) && is_already(reply))
        || (faulted && is_io(reply))
}

fn may_refuse(just_died: bool, faulted: bool, op: &Op, reply: &Reply) -> bool
    ensures { result ≡ may_refuse just_died faulted op.now reply.now }
{
    is_down(reply) || (just_died && ((is_crash(op) && is_ok(reply)) || (faulted && is_io(reply))))
}

fn may_answer_by(phase: Phase, just_died: bool, faulted: bool, op: &Op, reply: &Reply) -> bool
    ensures { result ≡ may_answer_by (phase_of phase) just_died faulted op.now reply.now }
{
    match phase {
        Phase::Stalled => false,
        Phase::Off | Phase::Dead => {
            if is_mount(op) {
                may_mount(phase, just_died, faulted, reply)
            } else {
                may_refuse(just_died, faulted, op, reply)
            }
        }
        Phase::Up => {
            if is_mount(op) {
                may_mount(phase, just_died, faulted, reply)
            } else {
                is_own(op, reply)
            }
        }
    }
}

fn may_owe(op: &Op, reply: &Reply) -> bool
    ensures { result ≡ may_owe op.now reply.now }
{
    if is_unmount(op) {
        is_ok(reply)
    } else {
        is_expired(reply)
    }
}

fn phase_after(phase: Phase, op: &Op, reply: &Reply) -> Phase
    ensures { phase_of result ≡ phase_after (phase_of phase) op.now reply.now }
{
    if is_mounted(reply) {
        return Phase::Up;
    }
    if is_up(phase) && is_ok(reply) && is_stall(op) {
        return Phase::Stalled;
    }
    if is_up(phase) && is_ok(reply) && is_unmount(op) {
        return Phase::Off;
    }
    phase
}

fn debt_after(debt: Debt, op: &Op, reply: &Reply) -> Debt
    ensures { debt_of result ≡ debt_after (debt_of debt) op.now reply.now }
{
    match debt {
        Debt::Free => Debt::Free,
        Debt::Owes => {
            if is_unmount(op) {
                Debt::Free
            } else {
                Debt::Owes
            }
        }
        Debt::MayOwe => {
            if is_expired(reply) {
                Debt::Owes
            } else {
                Debt::Free
            }
        }
    }
}

fn debt_of_death(phase: Phase, faulted: bool) -> Debt
    ensures { debt_of result ≡ debt_of_death (phase_of phase) faulted }
{
    if !is_stalled(phase) {
        return Debt::Free;
    }
    if faulted { Debt::MayOwe } else { Debt::Owes }
}

impl Party {
    /// Off, at first.
    pub const FIRST: Party = Party {
        phase: Phase::Off,
        debt: Debt::Free,
        may_die: false,
        just_died: false,
        under_recovery: false,
        dirty: false,
        next: 0,
    };

    /// Whether it may give a reply to an operation.
    pub fn may_answer(self, faulted: bool, op: &Op, reply: &Reply) -> bool
        ensures { result ≡ may_answer (state_by self) faulted op.now reply.now }
    {
        match self.debt {
            Debt::Free => may_answer_by(self.phase, self.just_died, faulted, op, reply),
            Debt::Owes => may_owe(op, reply),
            Debt::MayOwe => {
                may_owe(op, reply) || may_answer_by(self.phase, self.just_died, faulted, op, reply)
            }
        }
    }

    // After an answer of its own to an operation.
    fn after_answer(self, op: &Op, reply: &Reply) -> Party
        ensures state { state_by result ≡ after_answer (state_by self) op.now reply.now }
        ensures dirty { result.dirty ≡ self.dirty }
        ensures next { result.next ≡ self.next }
    {
        Party {
            phase: phase_after(self.phase, op, reply),
            debt: debt_after(self.debt, op, reply),
            may_die: !is_mounted(reply) && (self.may_die || (calls_death(op) && is_ok(reply))),
            just_died: false,
            under_recovery: self.under_recovery,
            dirty: self.dirty,
            next: self.next,
        }
    }

    // The same, to what a line asks.
    fn after_asked(self, what: &What, reply: &Reply) -> Party
        ensures state { state_by result ≡ after_asked (state_by self) what.now reply.now }
        ensures dirty { result.dirty ≡ self.dirty }
        ensures next { result.next ≡ self.next }
    {
        match what {
            What::Server(op) => self.after_answer(op, reply),
            What::Host(_) => self,
        }
    }

    /// After its answer to a line, behind which its lines wait from a place on.
    pub fn answered(self, what: &What, reply: &Reply, next: usize) -> Party
        ensures state { state_by result ≡ after_asked (state_by self) what.now reply.now }
        ensures dirty { result.dirty ≡ (not (is_mounted reply.now) && (self.dirty || asks_change what.now)) }
        ensures next { result.next ≡ next }
    {
        let mut party = self.after_asked(what, reply);
        party.dirty = !is_mounted(reply) && (self.dirty || asks_change(what));
        party.next = next;
        party
    }

    /// The same, whose lines wait from a place on.
    pub fn waits_from(self, next: usize) -> Party
        ensures { result ≡ record self { next = next } }
    {
        let mut party = self;
        party.next = next;
        party
    }

    /// After its death.
    pub fn dead(self, faulted: bool) -> Party
        ensures state { state_by result ≡ after_death (state_by self) faulted }
        ensures dirty { result.dirty ≡ self.dirty }
        ensures next { result.next ≡ self.next }
    {
        Party {
            phase: Phase::Dead,
            debt: debt_of_death(self.phase, faulted),
            may_die: false,
            just_died: true,
            under_recovery: false,
            dirty: self.dirty,
            next: self.next,
        }
    }
}
