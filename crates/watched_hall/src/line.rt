// Which line an event says, and what it adds to the figures.
ghost use Rattle.std.specs.Prelude.{◌≡◌};
ghost use Rattle.watched_hall.specs.Counting.{HasRoom, counted, figures_after, has_room, line_of};

use frang_board::Figures;
use hall_runs::Event;

/// A line, by what a board tells of it.
#[derive(Clone, Copy)]
pub enum LineKind {
    Answer,
    Dead,
    Recovered,
    /// A line of which only the number of lines tells.
    Other,
}

/// The line that an event says, if it says one.
pub(crate) fn line_of(event: &Event) -> Option<LineKind>
    ensures { result ≡ line_of event.now }
{
    match event {
        Event::Commit(_) => Some(LineKind::Answer),
        Event::Answer(_) => Some(LineKind::Answer),
        Event::HostLine(_) => Some(LineKind::Answer),
        Event::Die(_) => Some(LineKind::Dead),
        Event::Finish(_) => Some(LineKind::Recovered),
        Event::Resume(_) => Some(LineKind::Other),
        Event::Recover(_, _) => Some(LineKind::Other),
        Event::Show(_) => Some(LineKind::Other),
        Event::End => Some(LineKind::Other),
        _ => None,
    }
}

/// Whether none of the numbers is at its type's end.
pub(crate) fn has_room(figures: &Figures) -> bool
    ensures { result ≡ has_room figures.now }
{
    figures.said < u64::MAX
        && figures.answered < u64::MAX
        && figures.dead < u64::MAX
        && figures.recovered < u64::MAX
}

/// The figures with one line more.
fn counted(figures: Figures, line: LineKind) -> Figures
    requires { HasRoom figures }
    ensures { result ≡ counted figures line }
{
    let Figures {
        said,
        answered,
        dead,
        recovered,
    } = figures;
    let said = said + 1;
    match line {
        LineKind::Answer => Figures {
            said,
            answered: answered + 1,
            dead,
            recovered,
        },
        LineKind::Dead => Figures {
            said,
            answered,
            dead: dead + 1,
            recovered,
        },
        LineKind::Recovered => Figures {
            said,
            answered,
            dead,
            recovered: recovered + 1,
        },
        LineKind::Other => Figures {
            said,
            answered,
            dead,
            recovered,
        },
    }
}

/// The figures after an event.
pub(crate) fn figures_after(figures: Figures, event: &Event) -> Figures
    requires { HasRoom figures }
    ensures { result ≡ figures_after figures event.now }
{
    match line_of(event) {
        Some(line) => counted(figures, line),
        None => figures,
    }
}
