// Lines said, one after another.
ghost use Rattle.std.specs.Prelude.{◌≡◌, Some, List, [], ◌∷◌, ◌++◌};
ghost use Rattle.frang_base.specs.declared.said.Said.{Said as TheSaid};
ghost use Rattle.frang_base.specs.declared.said.Said.TheVariants as said;
ghost use Rattle.frang_outside.specs.Outside.{Follows};
ghost use Rattle.sector_bytes.specs.Sectors.{sectors_of};
ghost use Rattle.report_definitions.specs.Laws.{StandsForSome};
ghost use Rattle.image_commands.specs.Saying.{said_act, Says, SaysOne, SaysAll};
ghost use Rattle.image_commands.specs.Steps.{stopped_by, SaysNext, SaysTree};

use crate::end::ImageEnd;
use disk_definitions::Disk;
use disk_reading::DiskLines;
use frang_base::Said;
use frang_outside::{Outside, SayFault};
use reply_text::write_line;
use std::alloc::Global;

// Says a line.
fn say_one<O: Outside>(alloc: Global, said: &Said, out: &mut O) -> Result<(), SayFault>
    ensures counts { Follows (O.state out.old) (O.state out.new) }
    ensures outcome { SaysOne (O.state out.old) (O.state out.new) (said_act said.now) result }
{
    let mut text = Vec::new(alloc);
    write_line(alloc, said, &mut text)?;
    match out.say(&text) {
        Ok(()) => Ok(()),
        Err(SayFault::Failed) => Err(SayFault::Failed),
        Err(SayFault::NoMemory) => Err(SayFault::NoMemory),
    }
}

fn stopped_by(said: u64, fault: SayFault) -> ImageEnd
    ensures { result ≡ stopped_by said fault }
{
    match fault {
        SayFault::Failed => ImageEnd::Mute { said },
        SayFault::NoMemory => ImageEnd::NoMemory,
    }
}

/// Says the lines in order, until one isn't said.
pub fn say_all<O: Outside>(alloc: Global, lines: &[Said], out: &mut O) -> ImageEnd
    requires { Says (O.state out.old).acts [] }
    ensures counts { Follows (O.state out.old) (O.state out.new) }
    ensures says { SaysAll (O.state out.old) (O.state out.new) lines.now result }
{
    for (i, line) in lines.iter().enumerate() {
        match say_one(alloc, line, out) {
            Ok(()) => {}
            Err(fault) => return stopped_by(i as u64, fault),
        }
    }
    ImageEnd::Done
}

// Says the first of the lines that are left. How that ends the command, if it does; so many lines were said before.
fn say_first<O: Outside>(alloc: Global, count: u64, line: &Said, out: &mut O) -> Option<ImageEnd>
    ensures counts { Follows (O.state out.old) (O.state out.new) }
    ensures outcome { (rest : List TheSaid) → SaysNext (O.state out.old) (O.state out.new) count (line.now ∷ rest) rest result }
{
    match say_one(alloc, line, out) {
        Ok(()) => None,
        Err(fault) => Some(stopped_by(count, fault)),
    }
}

// Says the end, where no line is left.
fn say_end<O: Outside>(alloc: Global, count: u64, out: &mut O) -> ImageEnd
    ensures counts { Follows (O.state out.old) (O.state out.new) }
    ensures outcome { SaysNext (O.state out.old) (O.state out.new) count [] [] (Some result) }
{
    match say_one(alloc, &Said::End, out) {
        Ok(()) => ImageEnd::Done,
        Err(fault) => stopped_by(count, fault),
    }
}

// Says the next of the lines that are left of a disk's tree, or the end where none is left.
fn say_next<O: Outside>(
    alloc: Global,
    count: u64,
    lines: &mut DiskLines<'_>,
    out: &mut O,
) -> Option<ImageEnd>
    ensures counts { Follows (O.state out.old) (O.state out.new) }
    ensures outcome { SaysNext (O.state out.old) (O.state out.new) count lines.old lines.new result }
{
    match lines.next() {
        Ok(Some(line)) => say_first(alloc, count, &line, out),
        Ok(None) => Some(say_end(alloc, count, out)),
        Err(_) => Some(ImageEnd::NoMemory),
    }
}

// Says the lines that are left of a disk's tree, behind others that were said, and the end. More lines than can be counted no memory holds.
fn say_left<O: Outside>(
    alloc: Global,
    before: &[Said],
    lines: &mut DiskLines<'_>,
    out: &mut O,
) -> ImageEnd
    requires { Says (O.state out.old).acts before.now }
    ensures { SaysAll (O.state out.old) (O.state out.new) (before.now ++ lines.old ++ said.End ∷ []) result }
{
    for count in before.len() as u64..u64::MAX {
        match say_next(alloc, count, lines, out) {
            None => {}
            Some(end) => return end,
        }
    }
    ImageEnd::NoMemory
}

// Says some lines, then those that are left of a disk's tree, and the end.
fn say_behind<O: Outside>(
    alloc: Global,
    before: &[Said],
    lines: &mut DiskLines<'_>,
    out: &mut O,
) -> ImageEnd
    requires { Says (O.state out.old).acts [] }
    ensures { SaysAll (O.state out.old) (O.state out.new) (before.now ++ lines.old ++ said.End ∷ []) result }
{
    let said = say_all(alloc, before, out);
    match said {
        ImageEnd::Done => say_left(alloc, before, lines, out),
        _ => said,
    }
}

/// Says some lines, then those of the tree for which a disk stands, each as it is found, and the end.
pub fn say_tree<O: Outside>(alloc: Global, disk: &Disk, before: &[Said], out: &mut O) -> ImageEnd
    requires says { Says (O.state out.old).acts [] }
    requires stands { StandsForSome (sectors_of disk.now) }
    ensures { SaysTree (O.state out.old) (O.state out.new) (sectors_of disk.now) before.now result }
{
    match DiskLines::of(alloc, disk) {
        Ok(mut lines) => say_behind(alloc, before, &mut lines, out),
        Err(_) => ImageEnd::NoMemory,
    }
}
