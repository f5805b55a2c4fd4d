// A command on an image by what is asked.
ghost use Rattle.std.specs.Prelude.{[]};
ghost use Rattle.command_words.specs.Views.{image_asks_of};
ghost use Rattle.image_commands.specs.Saying.{Says};
ghost use Rattle.image_commands.specs.Asked.{EndsAsked, IsComplete, LeavesFiles, OnlyWrites, saved_by};

use crate::commands::{fsck, log, recover, tree};
use crate::end::ImageEnd;
use command_words::ImageCommand;
use frang_outside::{Files, Outside};
use std::alloc::Global;
use std::thread::Threads;

// The command by its name.
fn do_named<R: Threads + Sync, F: Files, O: Outside>(
    rt: &R,
    alloc: Global,
    command: &ImageCommand<'_>,
    files: &mut F,
    out: &mut O,
) -> ImageEnd
    requires { Says (O.state out.old).acts [] }
    ensures ends { EndsAsked (image_asks_of command.now) (F.state files.old) (F.state files.new) (O.state out.old) (O.state out.new) result }
    ensures files { LeavesFiles (image_asks_of command.now) result (F.state files.old).holds (F.state files.new).holds }
{
    match *command {
        ImageCommand::Recover { image, save } => recover(rt, alloc, image, save, files, out),
        ImageCommand::Tree { image } => tree(rt, alloc, image, files, out),
        ImageCommand::Log { image, server } => log(alloc, image, server, files, out),
        ImageCommand::Fsck { image } => fsck(rt, alloc, image, files, out),
    }
}

/// Does what is asked of an image: says its lines, and saves a recovery where that is asked. Where the image is there and good and no call
/// fails, all is done, unless memory is short. A disk is checked in threads.
pub fn do_command<R: Threads + Sync, F: Files, O: Outside>(
    rt: &R,
    alloc: Global,
    command: &ImageCommand<'_>,
    files: &mut F,
    out: &mut O,
) -> ImageEnd
    requires { Says (O.state out.old).acts [] }
    ensures ends { EndsAsked (image_asks_of command.now) (F.state files.old) (F.state files.new) (O.state out.old) (O.state out.new) result }
    ensures files { LeavesFiles (image_asks_of command.now) result (F.state files.old).holds (F.state files.new).holds }
    ensures writes { OnlyWrites (saved_by (image_asks_of command.now)) (F.state files.old).holds (F.state files.new).holds }
    ensures complete { IsComplete (image_asks_of command.now) (F.state files.old) (F.state files.new) (O.state out.old) (O.state out.new) result }
{
    do_named(rt, alloc, command, files, out)
}
