// Reads of a run's figures while it goes on.
ghost use Rattle.std.specs.Prelude.{◌≡◌, not, option_map};
ghost use Rattle.std.specs.Str.{bytes_eq};
ghost use Rattle.command_words.specs.Commands.{board_by, board_in, is_other_file, may_read};
ghost use Rattle.command_words.specs.Views.{board_of, given_of, text_of};

use crate::words::{GivenWords, at_most_one};
use script_definitions::number_within;

/// The most reads of a run's figures that may be asked for.
pub const READS_MAX: u32 = 1_000;

/// How often the figures of a run are read while it goes on, 1 to 1,000, and the file to which they are written.
#[derive(Clone, Copy)]
pub struct BoardChoice<'a> {
    pub reads: u32,
    pub file: &'a str,
}

fn board_in<'a>(reads: Option<&str>, file: Option<&'a str>) -> Option<Option<BoardChoice<'a>>>
    ensures { option_map (λ board. option_map board_of board) result ≡ board_in (text_of reads.entry) (text_of file.entry) }
{
    match (reads, file) {
        (None, None) => Some(None),
        (Some(reads), Some(file)) => {
            let reads = number_within(reads.as_bytes(), 1, READS_MAX)?;
            Some(Some(BoardChoice { reads, file }))
        }
        (None, Some(_)) => None,
        (Some(_), None) => None,
    }
}

/// The reads that are asked for, where any are. `None` exactly where they are asked for otherwise than so.
pub fn board_by<'a>(given: GivenWords<'_, 'a>) -> Option<Option<BoardChoice<'a>>>
    ensures { option_map (λ board. option_map board_of board) result ≡ board_by (given_of given.entry) }
{
    let reads = at_most_one(given.board)?;
    let file = at_most_one(given.board_to)?;
    board_in(reads, file)
}

fn is_other_file(file: &str, save: Option<&str>) -> bool
    ensures { result ≡ is_other_file file.now (text_of save.entry) }
{
    match save {
        None => true,
        Some(save) => file != save,
    }
}

/// Whether a run whose figures are read, where they are, may be saved in this file and its events ordered so.
pub fn may_read(board: &Option<BoardChoice<'_>>, save: Option<&str>, order: Option<u64>) -> bool
    ensures { result ≡ may_read (option_map board_of board.now) (text_of save.entry) order }
{
    match board {
        None => true,
        Some(board) => order.is_none() && is_other_file(board.file, save),
    }
}
