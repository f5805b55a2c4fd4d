// A script: numbered lines.
ghost use Rattle.std.specs.Prelude.{◌≡◌, ◌↔◌, [], ◌∷◌, ◌++◌, length, IfOk, IsTrue, OnOk, OnErr};
ghost use Rattle.std.specs.List.{slice_get};
ghost use Rattle.std.specs.Option.{option_copied};

use crate::{NoMemory, ServerId, What};
use std::alloc::{AllocError, Global};
use std::marker::Model;

/// A line of a script. Lines are numbered from 1, skipped ones too; a host's line has the host as `who`.
#[derive(Clone, Drop)]
pub struct Line {
    pub number: u32,
    pub who: ServerId,
    pub what: What,
}

/// A script, seen as the list of its lines, in order of their numbers.
#[derive(Drop)]
pub struct Script {
    lines: Vec<Line>,
}

impl Model for Script {
    ghost use Rattle.std.specs.Prelude.{List};
    ghost use Rattle.frang_base.specs.declared.script.Line.{Line};

    ghost Value = { List Line };

    ghost view = { λ s. s.lines.items };
}

impl Script {
    /// No lines. It takes no memory.
    pub fn new(alloc: Global) -> Self
        ensures { result ≡ [] }
    {
        Script {
            lines: Vec::new(alloc),
        }
    }

    /// Adds a line at the end. After `NoMemory` the script is as before.
    pub fn push(&mut self, line: Line) -> Result<(), NoMemory>
        ensures ok { OnOk result (self.new ≡ self.old ++ line ∷ []) }
        ensures err { OnErr result (self.new ≡ self.old) }
    {
        self.lines.push(line)?;
        Ok(())
    }

    /// The number of lines that aren't skipped.
    pub fn len(&self) -> usize
        ensures { result ≡ length self.now }
    {
        self.lines.len()
    }

    pub fn is_empty(&self) -> bool
        ensures { IsTrue result ↔ (self.now ≡ []) }
    {
        self.lines.is_empty()
    }

    /// The line at a place, counted from 0. `None` exactly where the place isn't below the length.
    pub fn get(&self, i: usize) -> Option<&Line>
        ensures { option_copied result ≡ slice_get self.now i }
    {
        self.lines.get(i)
    }

    /// All lines, in order.
    pub fn as_slice(&self) -> &[Line]
        ensures { result.now ≡ self.now }
    {
        &self.lines
    }

    /// Another script of the same lines.
    pub fn try_copy(&self) -> Result<Self, NoMemory>
        ensures { IfOk result (λ s. s ≡ self.now) }
    {
        Ok(self.clone()?)
    }
}

impl Clone for Script {
    ghost is_clone = { λ a b. a ≡ b };

    fn clone(&self) -> Result<Script, AllocError> {
        Ok(Script {
            lines: self.lines.clone()?,
        })
    }
}
