// The lines that events say, as texts.
ghost use Rattle.std.specs.Prelude.{◌≡◌, IfOk};
ghost use Rattle.server_core.specs.Phases.{reply_of};
ghost use Rattle.tree_definitions.specs.SaidLines.{said_line};

use frang_base::{NoMemory, Reply, Said, ServerId, Text};
use reply_text::write_line;
use server_core::PlainAnswer;
use std::alloc::Global;

/// A said line with its line feed.
pub(crate) fn text_of(alloc: Global, said: &Said) -> Result<Text, NoMemory>
    ensures { IfOk result (λ text. text ≡ said_line said.now) }
{
    let mut bytes = Vec::new(alloc);
    write_line(alloc, said, &mut bytes)?;
    Text::of(alloc, &bytes)
}

/// The answer to a line of a server or of the host.
pub(crate) fn answer_text(
    alloc: Global,
    server: ServerId,
    line: u32,
    reply: Reply,
) -> Result<Text, NoMemory>
    ensures { IfOk result (λ text. text ≡ said_line (Said.Answer server line reply)) }
{
    text_of(
        alloc,
        &Said::Answer {
            server,
            line,
            reply,
        },
    )
}

/// One that carries nothing.
pub(crate) fn plain_text(
    alloc: Global,
    server: ServerId,
    line: u32,
    answer: PlainAnswer,
) -> Result<Text, NoMemory>
    ensures { IfOk result (λ text. text ≡ said_line (Said.Answer server line (reply_of answer))) }
{
    answer_text(alloc, server, line, answer.reply())
}
