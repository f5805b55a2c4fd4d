// A flag for each number below a limit.
ghost use Rattle.std.specs.Prelude.{◌≡◌, ◌∷◌, ◌++◌, [], false, true, replicate, slice_set, IfOk, OnOk};
ghost use Rattle.disk_reading.specs.Marks.{flag_at};

use frang_base::NoMemory;
use std::alloc::Global;
use std::marker::Model;

/// A flag for each number below a limit.
#[derive(Drop)]
pub struct Flags {
    flags: Vec<bool>,
}

impl Model for Flags {
    ghost use Rattle.std.specs.Prelude.{List, Bool};

    ghost Value = { List Bool };

    ghost view = { λ f. f.flags.items };
}

impl Flags {
    /// No number below the limit has its flag.
    pub fn new(alloc: Global, limit: usize) -> Result<Self, NoMemory>
        ensures { IfOk result (λ f. f ≡ replicate limit false) }
    {
        Ok(Flags {
            flags: vec![in alloc; false; limit]?,
        })
    }

    /// Whether a number has its flag; past the limit it hasn't.
    pub fn has(&self, number: usize) -> bool
        ensures { result ≡ flag_at self.now number }
    {
        number < self.flags.len() && self.flags[number]
    }

    /// Gives a number its flag; past the limit nothing changes.
    #[tactic(auto, using(std::proofs::lemmas::List::set_past))]
    pub fn set(&mut self, number: usize)
        ensures { self.new ≡ slice_set self.old number true }
    {
        if number < self.flags.len() {
            self.flags[number] = true;
        }
    }

    /// One number more.
    pub fn push(&mut self, flag: bool) -> Result<(), NoMemory>
        ensures { OnOk result (self.new ≡ self.old ++ flag ∷ []) }
    {
        self.flags.push(flag)?;
        Ok(())
    }
}
