// The places of all parties.
ghost use Rattle.std.specs.Prelude.{◌≡◌, true, Some, IfOk, IfSome, IsSomeAnd, IsTrue, slice_set};
ghost use Rattle.std.specs.List.{find};
ghost use Rattle.std.specs.Option.{option_copied};
ghost use Rattle.core_definitions.specs.Scripts as words;
ghost use Rattle.core_definitions.specs.Scripts.{host_party, next_line};
ghost use Rattle.world_definitions.specs.Worlds.{marks_of};
ghost use Rattle.script_places.specs.Placed.{IsMarked, ascends, is_unanswered, placed_first, ticks_known};

use crate::marks::{is_marked, mark, unmarked};
use crate::scan::{first_places, next_place, open_place, place_of};
use crate::ticks::ticks_by_number;
use frang_base::{Line, NoMemory, Script, ServerId};
use std::alloc::Global;
use std::marker::Model;

/// The places of all parties in a script, seen as its lines with two marks of each by its number: it is answered, it has passed the gate. All memory is taken when it is made. A question
/// takes the same time however long the script is; so does an answer, taken over all answers to a script.
#[derive(Drop)]
pub struct Places {
    script: Script,
    answered: Vec<bool>,
    passed: Vec<bool>,
    // Of each party the place of its next line, and the place of the first line that isn't answered.
    next: Vec<usize>,
    first: usize,
    // By number, the ticks that the lines before let pass.
    ticks: Vec<u64>,
}

impl Model for Places {
    ghost use Rattle.script_places.specs.Placed.{AreTicks, IsPlaced, Placed};

    ghost Value = { Placed };

    ghost view = { λ places. record { script = places.script; answered = places.answered.items; passed = places.passed.items } };

    ghost invariant = { λ places. IsPlaced places.script places.answered.items places.passed.items places.next.items places.first × AreTicks places.script places.ticks.items };
}

impl Places {
    /// Nothing is answered, and nothing has passed. The numbers of the script's lines ascend.
    pub fn new(alloc: Global, script: Script) -> Result<Places, NoMemory>
        requires { IsTrue (ascends script) }
        ensures { IfOk result (λ places. places ≡ placed_first script) }
    {
        let answered = unmarked(alloc, script.as_slice())?;
        let passed = unmarked(alloc, script.as_slice())?;
        let next = first_places(alloc, script.as_slice())?;
        let ticks = ticks_by_number(alloc, script.as_slice())?;
        Ok(Places {
            script,
            answered,
            passed,
            next,
            first: 0,
            ticks,
        })
    }

    /// The script.
    pub fn script(&self) -> &Script
        ensures { result.now ≡ self.now.script }
    {
        &self.script
    }

    /// The next line of a party, a server or the host: its first that isn't answered. `None` exactly where all its lines are.
    pub fn next(&self, who: ServerId) -> Option<&Line>
        ensures line { option_copied result ≡ next_line self.now.script (marks_of self.now.answered) who.0 }
        ensures marked { IfSome (option_copied result) (IsMarked self.now) }
        ensures ascending { IsTrue (ascends self.now.script) }
    {
        self.script.get(place_of(&self.next, who))
    }

    /// The ticks that the lines before a number let pass, or the greatest number where they are more. `None` exactly where the number is above each line's.
    pub fn ticks_before(&self, number: u32) -> Option<u64>
        ensures { result ≡ ticks_known self.now.script number }
    {
        self.ticks.get(number as usize).copied()
    }

    // The first line that isn't answered.
    fn first_open(&self) -> Option<&Line>
        ensures line { option_copied result ≡ find (is_unanswered (marks_of self.now.answered)) self.now.script }
        ensures ascending { IsTrue (ascends self.now.script) }
    {
        self.script.get(self.first)
    }

    /// Whether the line of a number is answered.
    pub fn is_answered(&self, number: u32) -> bool
        ensures { result ≡ marks_of self.now.answered number }
    {
        is_marked(&self.answered, number)
    }

    /// Whether the line of a number has passed the gate.
    pub fn has_passed(&self, number: u32) -> bool
        ensures { result ≡ marks_of self.now.passed number }
    {
        is_marked(&self.passed, number)
    }

    /// Whether every host line before a number is answered.
    pub fn hosts_answered(&self, number: u32) -> bool
        ensures { result ≡ words.hosts_answered self.now.script (marks_of self.now.answered) number }
    {
        match self.next(ServerId::HOST) {
            Some(line) => number <= line.number,
            None => true,
        }
    }

    /// Whether every line before a number is answered.
    pub fn earlier_answered(&self, number: u32) -> bool
        ensures { result ≡ words.earlier_answered self.now.script (marks_of self.now.answered) number }
    {
        match self.first_open() {
            Some(line) => number <= line.number,
            None => true,
        }
    }

    /// Whether every line is answered.
    pub fn is_all_answered(&self) -> bool
        ensures { result ≡ words.all_answered self.now.script (marks_of self.now.answered) }
    {
        match self.first_open() {
            Some(_) => false,
            None => true,
        }
    }

    /// Whether there is a next line of the host, and every line before it is answered.
    pub fn is_waited_for(&self) -> bool
        ensures { result ≡ words.is_waited_for self.now.script (marks_of self.now.answered) (next_line self.now.script (marks_of self.now.answered) host_party) }
    {
        match self.next(ServerId::HOST) {
            Some(line) => self.earlier_answered(line.number),
            None => false,
        }
    }

    /// The next line of a party, which has this number, is answered.
    pub fn answer(&mut self, who: ServerId, number: u32)
        requires { IsSomeAnd (next_line self.old.script (marks_of self.old.answered) who.0) (λ line. line.number ≡ number) }
        ensures { self.new ≡ record self.old { answered = slice_set self.old.answered number true } }
    {
        mark(&mut self.answered, number);
        let lines = self.script.as_slice();
        let at = place_of(&self.next, who);
        self.next[who.0 as usize] = next_place(lines, &self.answered, who, at);
        self.first = open_place(lines, &self.answered, self.first);
    }

    /// The line of a number passes the gate.
    pub fn pass(&mut self, number: u32)
        ensures { self.new ≡ record self.old { passed = slice_set self.old.passed number true } }
    {
        mark(&mut self.passed, number);
    }
}
