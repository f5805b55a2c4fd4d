// The lines of a script, and the words of a line.
ghost use Rattle.std.specs.Prelude.{◌≡◌, [], ◌∷◌, MatchOption, MatchResult};
ghost use Rattle.std.specs.List.{position, slice_split};
ghost use Rattle.std.specs.Option.{option_copied};
ghost use Rattle.std.specs.Str.Lines.{lines, strip_carriage_return};
ghost use Rattle.script_definitions.specs.ScriptWords.{is_blank, words_of, no_words, one_word, two_words, three_words, four_words};
ghost use Rattle.script_lang.specs.Answers.{AreWords};
ghost use Rattle.script_lang.specs.Words.{blank_parts};

use frang_base::cut;
use script_definitions::LineFault;

fn without_return(line: &[u8]) -> &[u8]
    ensures { result.now ≡ strip_carriage_return line.now }
{
    match line {
        [front @ .., b'\r'] => front,
        _ => line,
    }
}

// The first line, and the text after it.
#[tactic(auto, using(script_definitions::proofs::LinesLaws::line_before, script_definitions::proofs::LinesLaws::last_line))]
pub fn next_line(text: &[u8]) -> Option<(&[u8], &[u8])>
    ensures { MatchOption result (lines text.now ≡ [])
        (λ l. lines text.now ≡ l.0.now ∷ lines l.1.now) }
{
    if text.is_empty() {
        return None;
    }
    let (line, after) = cut(text, b'\n');
    match after {
        Some(after) => Some((without_return(line), after)),
        None => Some((text, &[])),
    }
}

pub fn is_blank(byte: u8) -> bool
    ensures { result ≡ is_blank byte }
{
    byte == b' ' || byte == b'\t'
}

fn blank_position(text: &[u8]) -> Option<usize>
    ensures { result ≡ position is_blank text.now }
{
    text.iter().position(|byte| is_blank(*byte))
}

// The bytes before the first blank, and those after it, if there is one.
#[tactic(auto, using(frang_base::proofs::Cutting::cut_where, frang_base::proofs::Cutting::cut_nowhere))]
fn cut_at_blank(text: &[u8]) -> (&[u8], Option<&[u8]>)
    ensures { slice_split is_blank text.now ≡ result.0.now ∷ blank_parts (option_copied result.1) }
{
    match blank_position(text) {
        Some(at) => (&text[..at], Some(&text[at + 1..])),
        None => (text, None),
    }
}

// The first word, and the text after it.
#[tactic(auto, using(crate::proofs::LinesAndWords::word_found, crate::proofs::LinesAndWords::no_word_there))]
pub fn next_word(text: &[u8]) -> Option<(&[u8], &[u8])>
    ensures { MatchOption result (words_of text.now ≡ [])
        (λ w. words_of text.now ≡ w.0.now ∷ words_of w.1.now) }
{
    let mut rest = Some(text);
    while let Some(left) = rest {
        let (part, after) = cut_at_blank(left);
        if !part.is_empty() {
            return Some((part, after.unwrap_or(&[])));
        }
        rest = after;
    }
    None
}

// The first word, which must be there, and the text after it.
fn wanted_word(text: &[u8]) -> Result<(&[u8], &[u8]), LineFault>
    ensures { MatchResult result
        (λ w. words_of text.now ≡ w.0.now ∷ words_of w.1.now)
        (λ f. (words_of text.now ≡ []) × (f ≡ LineFault.MissingWord)) }
{
    match next_word(text) {
        Some((word, rest)) => Ok((word, rest)),
        None => Err(LineFault::MissingWord),
    }
}

// No word may follow.
pub fn no_words(text: &[u8]) -> Result<(), LineFault>
    ensures { result ≡ no_words (words_of text.now) }
{
    match next_word(text) {
        Some(_) => Err(LineFault::ExtraWord),
        None => Ok(()),
    }
}

pub fn one_word(text: &[u8]) -> Result<&[u8], LineFault>
    ensures { AreWords (λ w. w.now) (one_word (words_of text.now)) result }
{
    let (a, rest) = wanted_word(text)?;
    no_words(rest)?;
    Ok(a)
}

pub fn two_words(text: &[u8]) -> Result<(&[u8], &[u8]), LineFault>
    ensures { AreWords (λ w. (w.0.now, w.1.now)) (two_words (words_of text.now)) result }
{
    let (a, rest) = wanted_word(text)?;
    let b = one_word(rest)?;
    Ok((a, b))
}

pub fn three_words(text: &[u8]) -> Result<(&[u8], &[u8], &[u8]), LineFault>
    ensures { AreWords (λ w. (w.0.now, w.1.now, w.2.now)) (three_words (words_of text.now)) result }
{
    let (a, rest) = wanted_word(text)?;
    let (b, c) = two_words(rest)?;
    Ok((a, b, c))
}

pub fn four_words(text: &[u8]) -> Result<(&[u8], &[u8], &[u8], &[u8]), LineFault>
    ensures { AreWords (λ w. (w.0.now, w.1.now, w.2.now, w.3.now)) (four_words (words_of text.now)) result }
{
    let (a, rest) = wanted_word(text)?;
    let (b, c, d) = three_words(rest)?;
    Ok((a, b, c, d))
}
