// The command line as `clap` has it: a command's name, and below each name the same positional words and options.
ghost use Rattle.std.specs.Prelude.{◌≡◌, false, IfOk};
ghost use Rattle.clap.specs.Simple.{with_rule};
ghost use Rattle.clap.specs.Words.{app_of};
ghost use Rattle.clap.specs.declared.builder.command.Command.TheViews.{out-Command};
ghost use Rattle.command_line.specs.Line.{line_app, option_rule, with_command, words_app};

use clap::{Arg, ArgAction, Command};
use std::alloc::{AllocError, Global};

// The command with an option more, whose value is kept as often as it is given.
fn with_option<'a>(
    alloc: Global,
    command: Command<'a>,
    name: &'a str,
) -> Result<Command<'a>, AllocError>
    requires { (out-Command command).has_globals ≡ false }
    ensures app { IfOk result (λ more. app_of more ≡ with_rule (app_of command.entry) (option_rule name.entry.now)) }
    ensures local { IfOk result (λ more. (out-Command more).has_globals ≡ false) }
{
    let option = Arg::new(alloc, name).long(name).action(ArgAction::Append);
    command.arg(option)
}

// What may stand behind a command's name, as often as it does. How much of it a command has is seen to by the command.
fn command_named<'a>(alloc: Global, name: &'a str) -> Result<Command<'a>, AllocError>
    ensures app { IfOk result (λ command. app_of command ≡ words_app name.entry.now) }
    ensures local { IfOk result (λ command. (out-Command command).has_globals ≡ false) }
{
    let places = Arg::new(alloc, "places").action(ArgAction::Append);
    let with_places = Command::new(alloc, name).arg(places)?;
    let with_segments = with_option(alloc, with_places, "segments")?;
    let with_image = with_option(alloc, with_segments, "image")?;
    let with_save = with_option(alloc, with_image, "save")?;
    let with_order = with_option(alloc, with_save, "order")?;
    let with_board = with_option(alloc, with_order, "board")?;
    with_option(alloc, with_board, "board-to")
}

fn with_command<'a>(
    alloc: Global,
    line: Command<'a>,
    name: &'a str,
) -> Result<Command<'a>, AllocError>
    ensures { IfOk result (λ more. app_of more ≡ with_command (app_of line.entry) name.entry.now) }
{
    let command = command_named(alloc, name)?;
    line.subcommand(command)
}

/// The line has no words of `clap`'s own: no help, and no name of the program.
pub fn command_line<'a>(alloc: Global) -> Result<Command<'a>, AllocError>
    ensures { IfOk result (λ line. app_of line ≡ line_app) }
{
    let bare = Command::new(alloc, "frang")
        .no_binary_name(true)
        .disable_help_flag(true)
        .disable_help_subcommand(true)
        .subcommand_required(true);
    let run = with_command(alloc, bare, "run")?;
    let recover = with_command(alloc, run, "recover")?;
    let tree = with_command(alloc, recover, "tree")?;
    let log = with_command(alloc, tree, "log")?;
    let fsck = with_command(alloc, log, "fsck")?;
    with_command(alloc, fsck, "soak")
}
