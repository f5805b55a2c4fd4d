// The report of a soak, over one disk or over a pair.
ghost use Rattle.std.specs.Prelude.{◌≡◌, ◌++◌, IfOk, OnOk};
ghost use Rattle.quiet_outside.specs.SoakNumbers.{numbers_in, report_with};
ghost use Rattle.quiet_outside.specs.SoakReports.{numbered, pair_line_of, said_lines, soak_line_of};

use crate::numbers::Numbers;
use frang_base::{NoMemory, Text};
use itoa::Buffer;
use reply_text::read_line;
use std::alloc::Global;

/// The report of the soak of this number that said these lines: how many lines were answered, how
/// many of them `ok`, the files that its tree has, and their bytes. A text that is no line that can
/// be said counts for nothing.
pub fn soak_line(alloc: Global, number: u64, lines: &[Text]) -> Result<Text, NoMemory>
    ensures { IfOk result (λ text. text ≡ soak_line_of number lines.now) }
{
    let numbers = numbers_of(alloc, lines)?;
    report_text(alloc, b"soak ", number, &numbers)
}

/// The same report of a soak over a pair, with its own word.
pub fn pair_line(alloc: Global, number: u64, lines: &[Text]) -> Result<Text, NoMemory>
    ensures { IfOk result (λ text. text ≡ pair_line_of number lines.now) }
{
    let numbers = numbers_of(alloc, lines)?;
    report_text(alloc, b"pair ", number, &numbers)
}

fn numbers_of(alloc: Global, lines: &[Text]) -> Result<Numbers, NoMemory>
    ensures { IfOk result (λ numbers. numbers ≡ numbers_in (said_lines lines.now)) }
{
    let mut numbers = Numbers::none();
    for (i, line) in lines.iter().enumerate() {
        if let Some(said) = read_line(alloc, line.as_slice())? {
            numbers.count(&said, i);
        }
    }
    Ok(numbers)
}

fn report_text(alloc: Global, word: &[u8], number: u64, numbers: &Numbers) -> Result<Text, NoMemory>
    ensures { IfOk result (λ text. text ≡ report_with word.now number numbers.now) }
{
    let mut text = Text::new(alloc);
    push_numbered(word, u128::from(number), &mut text)?;
    push_numbered(b" lines ", u128::from(numbers.answers), &mut text)?;
    push_numbered(b" ok ", u128::from(numbers.oks), &mut text)?;
    push_numbered(b" files ", u128::from(numbers.files), &mut text)?;
    push_numbered(b" bytes ", numbers.bytes, &mut text)?;
    text.push(b'\n')?;
    Ok(text)
}

// Words, and then a number.
fn push_numbered(words: &[u8], number: u128, to: &mut Text) -> Result<(), NoMemory>
    ensures { OnOk result (to.new ≡ to.old ++ numbered words.now number) }
{
    to.append(words)?;
    to.append(Buffer::new().format(number).as_bytes())
}
