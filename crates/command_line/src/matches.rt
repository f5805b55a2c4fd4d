// What `clap` found in a line, as a command.
ghost use Rattle.std.specs.Prelude.{◌≡◌, IfSome, option_map};
ghost use Rattle.clap.specs.Words.{found_of, rows_of, subcommand_rows_of};
ghost use Rattle.command_words.specs.Views.{MayDo, asked_of, given_of};
ghost use Rattle.command_line.specs.Line.{asked_entered, given_in};

use clap::ArgMatches;
use command_words::{Command, GivenWords, asked_with};

// What `clap` found behind a command's name.
fn given_in<'m, 'a>(matches: &'m ArgMatches<'a>) -> GivenWords<'m, 'a>
    ensures { given_of result ≡ given_in (rows_of (found_of matches.now)) }
{
    GivenWords {
        places: matches.get_strs("places"),
        segments: matches.get_strs("segments"),
        image: matches.get_strs("image"),
        save: matches.get_strs("save"),
        order: matches.get_strs("order"),
        board: matches.get_strs("board"),
        board_to: matches.get_strs("board-to"),
    }
}

/// What a command that `clap` met asks.
pub fn asked_in<'a>(matches: &ArgMatches<'a>) -> Option<Command<'a>>
    ensures is { option_map asked_of result ≡ asked_entered (subcommand_rows_of matches.now) }
    ensures may { IfSome result (λ command. MayDo command) }
{
    let (name, behind) = matches.subcommand()?;
    asked_with(name, given_in(behind))
}
