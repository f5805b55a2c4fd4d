// What the words of a command line ask.
ghost use Rattle.std.specs.Prelude.{◌≡◌, ◌≤◌, IfSome, option_map};
ghost use Rattle.frang_base.specs.declared.limits.TheConstants.{SEGMENTS_MAX};
ghost use Rattle.command_words.specs.Commands.{asked_with, bare, disk_by, disk_in, fsck_by, if_fits, image_asked, log_by, recover_by, run_by, segments_in, soak_by, tree_by};
ghost use Rattle.command_words.specs.Views.{HasFreshSize, MayDo, MayRun, asked_of, asks_of, disk_of, given_of, image_asks_of, text_of};

use crate::boards::{BoardChoice, board_by, may_read};
use crate::orders::{order_in, wide_number};
use crate::words::{GivenWords, at_most_one, only, only_two, unless};
use frang_base::limits::{SEGMENTS_DEFAULT, SEGMENTS_MAX};
use script_definitions::number_within;

/// The disk on which a script is run: a fresh one of so many segments, 1 to 64, or that of an image, by its name.
#[derive(Clone, Copy)]
pub enum DiskChoice<'a> {
    Fresh { segments: u32 },
    Image { image: &'a str },
}

/// A script to be run on a disk, in the order of events that this number picks, where one is given; its figures are read while it goes on, where that is asked, which isn't with an order; after the
/// run the disk is saved, where a name is given for its image, which isn't the one for the figures.
#[derive(Clone, Copy)]
pub struct RunCommand<'a> {
    pub script: &'a str,
    pub disk: DiskChoice<'a>,
    pub save: Option<&'a str>,
    pub order: Option<u64>,
    pub board: Option<BoardChoice<'a>>,
}

/// A command on an image, by the image's name.
#[derive(Clone, Copy)]
pub enum ImageCommand<'a> {
    /// To tell what its logs keep and its tree, and to save the replayed disk, where a name is given for its image.
    Recover {
        image: &'a str,
        save: Option<&'a str>,
    },
    /// To tell its tree.
    Tree {
        image: &'a str,
    },
    /// To tell the records of one of its logs.
    Log {
        image: &'a str,
        server: u8,
    },
    /// To check its replayed disk and tell the report.
    Fsck {
        image: &'a str,
    },
}

/// What words ask.
#[derive(Clone, Copy)]
pub enum Command<'a> {
    Run(RunCommand<'a>),
    OnImage(ImageCommand<'a>),
    /// To run the script of a soak, by its number.
    Soak { number: u64 },
}

#[tactic(auto, using(script_definitions::proofs::NumeralLaws::number_in_most, crate::proofs::Numbers::number_in_least))]
fn segments_in(value: Option<&str>) -> Option<u32>
    ensures is { result ≡ segments_in (text_of value.entry) }
    ensures least { IfSome result (λ segments. 1 ≤ segments) }
    ensures most { IfSome result (λ segments. segments ≤ SEGMENTS_MAX) }
{
    match value {
        None => Some(SEGMENTS_DEFAULT),
        Some(value) => number_within(value.as_bytes(), 1, SEGMENTS_MAX),
    }
}

// The disk that is asked for, which isn't both fresh and an image's.
fn disk_in<'a>(segments: Option<&str>, image: Option<&'a str>) -> Option<DiskChoice<'a>>
    ensures is { option_map disk_of result ≡ disk_in (text_of segments.entry) (text_of image.entry) }
    ensures sized { IfSome result (λ disk. HasFreshSize disk) }
{
    match (segments, image) {
        (segments, None) => {
            let segments = segments_in(segments)?;
            Some(DiskChoice::Fresh { segments })
        }
        (None, Some(image)) => Some(DiskChoice::Image { image }),
        (Some(_), Some(_)) => None,
    }
}

fn disk_by<'a>(given: GivenWords<'_, 'a>) -> Option<DiskChoice<'a>>
    ensures is { option_map disk_of result ≡ disk_by (given_of given.entry) }
    ensures sized { IfSome result (λ disk. HasFreshSize disk) }
{
    let segments = at_most_one(given.segments)?;
    let image = at_most_one(given.image)?;
    disk_in(segments, image)
}

// The run, where its options go together.
fn if_fits<'a>(run: RunCommand<'a>) -> Option<RunCommand<'a>>
    requires { HasFreshSize run.disk }
    ensures is { option_map asks_of result ≡ if_fits (asks_of run.entry) }
    ensures may { IfSome result (λ run. MayRun run) }
{
    if may_read(&run.board, run.save, run.order) {
        Some(run)
    } else {
        None
    }
}

fn run_by<'a>(given: GivenWords<'_, 'a>) -> Option<RunCommand<'a>>
    ensures is { option_map asks_of result ≡ run_by (given_of given.entry) }
    ensures may { IfSome result (λ run. MayRun run) }
{
    let script = only(given.places)?;
    let disk = disk_by(given)?;
    let save = at_most_one(given.save)?;
    let order = order_in(at_most_one(given.order)?)?;
    let board = board_by(given)?;
    if_fits(RunCommand {
        script,
        disk,
        save,
        order,
        board,
    })
}

fn recover_by<'a>(given: GivenWords<'_, 'a>) -> Option<ImageCommand<'a>>
    ensures { option_map image_asks_of result ≡ recover_by (given_of given.entry) }
{
    let image = unless(given.segments, only(given.places));
    let image = unless(given.order, unless(given.image, image));
    let image = unless(given.board_to, unless(given.board, image))?;
    let save = at_most_one(given.save)?;
    Some(ImageCommand::Recover { image, save })
}

// A word, where no option is given.
fn bare<'a>(given: GivenWords<'_, '_>, word: Option<&'a str>) -> Option<&'a str>
    ensures { text_of result ≡ bare (given_of given.entry) (text_of word.entry) }
{
    let word = unless(given.image, unless(given.segments, word));
    let word = unless(given.order, unless(given.save, word));
    unless(given.board_to, unless(given.board, word))
}

fn tree_by<'a>(given: GivenWords<'_, 'a>) -> Option<ImageCommand<'a>>
    ensures { option_map image_asks_of result ≡ tree_by (given_of given.entry) }
{
    let image = bare(given, only(given.places))?;
    Some(ImageCommand::Tree { image })
}

#[tactic(auto, using(script_definitions::proofs::NumeralLaws::number_in_most))]
fn log_by<'a>(given: GivenWords<'_, 'a>) -> Option<ImageCommand<'a>>
    ensures { option_map image_asks_of result ≡ log_by (given_of given.entry) }
{
    let (image, server) = only_two(given.places)?;
    let image = bare(given, Some(image))?;
    let number = number_within(server.as_bytes(), 0, 255)?;
    Some(ImageCommand::Log {
        image,
        server: number as u8,
    })
}

fn fsck_by<'a>(given: GivenWords<'_, 'a>) -> Option<ImageCommand<'a>>
    ensures { option_map image_asks_of result ≡ fsck_by (given_of given.entry) }
{
    let image = bare(given, only(given.places))?;
    Some(ImageCommand::Fsck { image })
}

fn soak_by(given: GivenWords<'_, '_>) -> Option<u64>
    ensures { result ≡ soak_by (given_of given.entry) }
{
    let number = bare(given, only(given.places))?;
    wide_number(number)
}

// A command on an image by its name.
fn image_asked<'a>(name: &str, given: GivenWords<'_, 'a>) -> Option<ImageCommand<'a>>
    ensures { option_map image_asks_of result ≡ image_asked name.now (given_of given.entry) }
{
    if name == "recover" {
        recover_by(given)
    } else if name == "tree" {
        tree_by(given)
    } else if name == "log" {
        log_by(given)
    } else if name == "fsck" {
        fsck_by(given)
    } else {
        None
    }
}

/// What a command of this name asks, by what stands behind the name. `None` exactly where there is no such command, or it isn't asked so.
pub fn asked_with<'a>(name: &str, given: GivenWords<'_, 'a>) -> Option<Command<'a>>
    ensures is { option_map asked_of result ≡ asked_with name.now (given_of given.entry) }
    ensures may { IfSome result (λ command. MayDo command) }
{
    if name == "run" {
        let run = run_by(given)?;
        Some(Command::Run(run))
    } else if name == "soak" {
        let number = soak_by(given)?;
        Some(Command::Soak { number })
    } else {
        let asked = image_asked(name, given)?;
        Some(Command::OnImage(asked))
    }
}
