// Marks of lines by their numbers.
ghost use Rattle.std.specs.Prelude.{◌≡◌, ◌+◌, ◌≤◌, true, false, replicate, slice_set, IfOk};
ghost use Rattle.world_definitions.specs.Worlds.{marks_of};
ghost use Rattle.script_places.specs.Placed.{mark_count};

use frang_base::{Line, NoMemory};
use std::alloc::Global;

// How many marks the lines need.
fn mark_count(lines: &[Line]) -> usize
    ensures { result ≡ mark_count lines.now }
{
    let mut count = 0;
    for line in lines {
        let number = line.number;
        count = count.max(number as usize + 1);
    }
    count
}

/// A mark for each number of a line, none of which is set.
pub(crate) fn unmarked(alloc: Global, lines: &[Line]) -> Result<Vec<bool>, NoMemory>
    ensures { IfOk result (λ marks. marks.items ≡ replicate (mark_count lines.now) false) }
{
    Ok(vec![in alloc; false; mark_count(lines)]?)
}

/// Whether the line of a number has its mark.
pub(crate) fn is_marked(marks: &[bool], number: u32) -> bool
    ensures { result ≡ marks_of marks.now number }
{
    match marks.get(number as usize) {
        Some(mark) => *mark,
        None => false,
    }
}

/// The line of a number gets its mark.
pub(crate) fn mark(marks: &mut Vec<bool>, number: u32)
    ensures { marks.new.items ≡ slice_set marks.old.items number true }
{
    let at = number as usize;
    if at < marks.len() {
        marks[at] = true;
    }
}
