// The words behind a command's name.
ghost use Rattle.std.specs.Prelude.{◌≡◌, option_map};
ghost use Rattle.command_words.specs.Commands.{at_most_one, only, only_two, unless};
ghost use Rattle.command_words.specs.Views.{pair_of, text_of, texts_of};

/// What stands behind a command's name, in the words' order, where there is any: the positional words, and the values of each option.
#[derive(Clone, Copy)]
pub struct GivenWords<'m, 'a> {
    pub places: Option<&'m [&'a str]>,
    pub segments: Option<&'m [&'a str]>,
    pub image: Option<&'m [&'a str]>,
    pub save: Option<&'m [&'a str]>,
    pub order: Option<&'m [&'a str]>,
    pub board: Option<&'m [&'a str]>,
    pub board_to: Option<&'m [&'a str]>,
}

/// The only word.
pub fn only<'a>(words: Option<&[&'a str]>) -> Option<&'a str>
    ensures { text_of result ≡ only (texts_of words.entry) }
{
    let words = words?;
    match words {
        [] => None,
        [word] => Some(*word),
        [_, _, ..] => None,
    }
}

/// The only two words.
pub fn only_two<'a>(words: Option<&[&'a str]>) -> Option<(&'a str, &'a str)>
    ensures { pair_of result ≡ only_two (texts_of words.entry) }
{
    let words = words?;
    match words {
        [] => None,
        [_] => None,
        [word, next] => Some((*word, *next)),
        [_, _, _, ..] => None,
    }
}

/// An option's value, which it has at most once.
pub fn at_most_one<'a>(values: Option<&[&'a str]>) -> Option<Option<&'a str>>
    ensures { option_map text_of result ≡ at_most_one (texts_of values.entry) }
{
    match values {
        None => Some(None),
        Some([]) => Some(None),
        Some([value]) => Some(Some(*value)),
        Some([_, _, ..]) => None,
    }
}

/// The word, where an option isn't given.
pub fn unless<'a>(values: Option<&[&str]>, word: Option<&'a str>) -> Option<&'a str>
    ensures { text_of result ≡ unless (texts_of values.entry) (text_of word.entry) }
{
    match values {
        None => word,
        Some([]) => word,
        Some([_, ..]) => None,
    }
}
