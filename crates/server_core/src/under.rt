// The line under way.
ghost use Rattle.std.specs.Prelude.{◌≡◌, ◌<◌, ◌&&◌, IfOk, OnOk, is_some, not};
ghost use Rattle.std.specs.List.{slice_get};
ghost use Rattle.std.specs.Option.{option_copied, option_map};
ghost use Rattle.sector_bytes.specs.SectorMaps.{with_value};
ghost use Rattle.core_definitions.specs.LineEffects.{refused_under, set_anew};
ghost use Rattle.core_definitions.specs.Lines.{operation_of, set_at_first, under_at_first};
ghost use Rattle.core_definitions.specs.Servers.{asked_by, mount_answer};
ghost use Rattle.frang_base.specs.Functions.{member};
ghost use Rattle.log_slots.specs.Reading.{are_all_read, log_rules, read_end, unread_slots};
ghost use Rattle.core_definitions.specs.WriteEffects.{under_at_death};
ghost use Rattle.set_definitions.specs.Sets.{first_set};
ghost use Rattle.tree_definitions.specs.Apply.{is_path_op};
ghost use Rattle.server_core.specs.Phases.{reply_of};

use crate::answers::{PlainAnswer, answer_at_death};
use crate::kinds::is_path_op;
use frang_base::{Block, Line, NoMemory, Op, What};
use lock_sets::{LockSet, SeenSectors};
use log_slots::Slots;
use std::alloc::Global;
use std::marker::Model;

/// The line under way of a server, the answer that is fixed for it if one is, its set, what it has seen, and for a mount the slots of its log that it has read and whether a get
/// failed under it. Contracts see that of the core.
#[derive(Drop)]
pub struct Under {
    line: Line,
    fixed: Option<PlainAnswer>,
    set: LockSet,
    seen: SeenSectors,
    // None but of a mount.
    slots: Option<Slots>,
    get_failed: bool,
}

impl Model for Under {
    ghost use Rattle.std.specs.Option.{option_map};
    ghost use Rattle.server_core.specs.Phases.{reply_of};
    ghost use Rattle.server_core.specs.States.{UnderState, slots_in, spare_in};

    ghost Value = { UnderState };

    ghost view = { λ u. record {
      under = record { line = u.line; fixed = option_map reply_of u.fixed; set = u.set; seen = u.seen; slots = slots_in u.slots; get_failed = u.get_failed };
      spare = spare_in u.slots;
    } };
}

// The set with which a line begins: the root's lock where it goes over paths, else none.
fn set_at_first(alloc: Global, operation: &Op) -> Result<LockSet, NoMemory>
    ensures { IfOk result (λ set. set ≡ set_at_first operation.now) }
{
    if is_path_op(operation) {
        LockSet::first(alloc)
    } else {
        Ok(LockSet::new(alloc))
    }
}

impl Under {
    /// A line as it begins, with the answer that is fixed for it. Its one refusal is want of memory.
    pub fn of(
        alloc: Global,
        line: Line,
        operation: &Op,
        fixed: Option<PlainAnswer>,
    ) -> Result<Under, NoMemory>
        ensures { IfOk result (λ u. u.under ≡ under_at_first line operation.now (option_map reply_of fixed)) }
    {
        Ok(Under {
            line,
            fixed,
            set: set_at_first(alloc, operation)?,
            seen: SeenSectors::new(alloc),
            slots: None,
            get_failed: false,
        })
    }

    /// The line.
    pub fn line(&self) -> &Line
        ensures { result.now ≡ self.now.under.line }
    {
        &self.line
    }

    /// Its number.
    pub fn number(&self) -> u32
        ensures { result ≡ self.now.under.line.number }
    {
        self.line.number
    }

    /// What it asks. `None` exactly where it is a line of the host.
    pub fn operation(&self) -> Option<&Op>
        ensures { option_copied result ≡ operation_of self.now.under.line.what }
    {
        match &self.line.what {
            What::Server(operation) => Some(operation),
            What::Host(_) => None,
        }
    }

    /// The answer that is fixed for it, if one is.
    pub fn fixed(&self) -> Option<PlainAnswer>
        ensures { option_map reply_of result ≡ self.now.under.fixed }
    {
        self.fixed
    }

    /// Whether its answer is open.
    pub fn is_open(&self) -> bool
        ensures { result ≡ not (is_some self.now.under.fixed) }
    {
        self.fixed.is_none()
    }

    /// Whether it goes over paths and its answer is open.
    pub fn is_over_paths(&self) -> bool
        ensures { result ≡ (not (is_some self.now.under.fixed) && asked_by is_path_op (operation_of self.now.under.line.what)) }
    {
        match self.operation() {
            Some(operation) => self.is_open() && is_path_op(operation),
            None => false,
        }
    }

    /// The locks of the line, as far as they are found.
    pub fn set(&self) -> &LockSet
        ensures { result.now ≡ self.now.under.set }
    {
        &self.set
    }

    /// What it has seen.
    pub fn seen(&self) -> &SeenSectors
        ensures { result.now ≡ self.now.under.seen }
    {
        &self.seen
    }

    /// Its set begins anew, and nothing is seen: `first` is the set with which a line begins.
    pub fn begin_anew(&mut self, alloc: Global, first: LockSet)
        requires { first ≡ first_set }
        ensures under { self.new.under ≡ set_anew self.old.under }
        ensures room { self.new.spare ≡ self.old.spare }
    {
        self.set = first;
        self.seen = SeenSectors::new(alloc);
    }

    /// Its set has grown to this one, and it has seen more.
    pub fn grow(&mut self, set: LockSet, seen: SeenSectors)
        ensures under { self.new.under ≡ record self.old.under { set = set; seen = seen } }
        ensures room { self.new.spare ≡ self.old.spare }
    {
        self.set = set;
        self.seen = seen;
    }
}

impl Under {
    /// Makes room for one more slot of the server's log. Nothing else changes, whatever the answer.
    pub fn reserve_slot(&mut self, alloc: Global) -> Result<(), NoMemory>
        ensures under { self.new.under ≡ self.old.under }
        ensures ok { OnOk result (0 < self.new.spare) }
    {
        match &mut self.slots {
            Some(slots) => slots.reserve(),
            None => {
                let mut slots = Slots::new(alloc)?;
                slots.reserve()?;
                self.slots = Some(slots);
                Ok(())
            }
        }
    }

    /// A slot of its server's log is read, and has this block. There is room for it.
    pub fn read_slot(&mut self, slot: u8, block: &Block)
        requires { 0 < self.old.spare }
        ensures { self.new.under ≡ record self.old.under { slots = with_value self.old.under.slots slot block.now } }
    {
        match &mut self.slots {
            Some(slots) => slots.put(slot, block),
            None => unreachable!(),
        }
    }

    /// The first slot of its server's log that it hasn't read. `None` exactly where it has read all.
    pub fn first_unread(&self) -> Option<u8>
        ensures { result ≡ slice_get (unread_slots self.now.under.slots) 0 }
    {
        match &self.slots {
            Some(slots) => slots.first_unread(),
            None => Some(0),
        }
    }

    /// Whether it hasn't read this slot of its server's log.
    pub fn is_unread(&self, slot: u8) -> bool
        ensures { result ≡ member slot (unread_slots self.now.under.slots) }
    {
        match &self.slots {
            Some(slots) => slots.is_unread(slot),
            None => true,
        }
    }

    /// Where the log ends that the slots say, one that isn't read counting as zeros. Its one refusal is want of memory.
    pub fn end(&self, alloc: Global) -> Result<u64, NoMemory>
        ensures { IfOk result (λ end. end ≡ read_end self.now.under.slots) }
    {
        match &self.slots {
            Some(slots) => slots.end(alloc),
            None => Err(NoMemory),
        }
    }

    /// A get failed under it.
    pub fn fail_get(&mut self)
        ensures under { self.new.under ≡ refused_under self.old.under }
        ensures room { self.new.spare ≡ self.old.spare }
    {
        self.get_failed = true;
    }

    // Whether all slots are read.
    fn has_read_all(&self) -> bool
        ensures { result ≡ are_all_read self.now.under.slots }
    {
        match &self.slots {
            Some(slots) => slots.are_all_read(),
            None => false,
        }
    }

    /// The answer to a mount at a server that is off, where it is due: `io` once a get failed under it, else `mounted` once all slots are read.
    pub fn mount_answer(&self) -> Option<PlainAnswer>
        ensures { option_map reply_of result ≡ mount_answer log_rules self.now.under }
    {
        if self.get_failed {
            Some(PlainAnswer::Io)
        } else if self.has_read_all() {
            Some(PlainAnswer::Mounted)
        } else {
            None
        }
    }

    /// Its server dies: an open answer is fixed.
    pub fn fix_at_death(&mut self, failed: bool)
        ensures under { self.new.under ≡ under_at_death failed self.old.under }
        ensures room { self.new.spare ≡ self.old.spare }
    {
        if self.fixed.is_some() {
            return;
        }
        let fixed = match self.operation() {
            Some(operation) => Some(answer_at_death(failed, operation)),
            None => None,
        };
        self.fixed = fixed;
    }
}
