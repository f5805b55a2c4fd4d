// What of a command line is no command.
use crate::usage::{OPTIONS, OptionForm, USAGES, Usage};
use frang_base::NoMemory;
use std::alloc::Global;

/// What is wrong with the words of a command line: a line of words without a line feed, and the place of the command that they name among the six, `run`, `recover`, `tree`, `log`, `fsck`,
/// `soak`, where they name one.
#[derive(Drop)]
pub struct Wrong {
    pub text: String,
    pub command: Option<usize>,
}

// How far the words behind a command were looked at: how many that are no options, whether `--` has ended these, whether the next word is the last option's value, and which were given.
#[derive(Drop)]
struct Walk<'a> {
    usage: &'static Usage,
    words: &'a [String],
    places: usize,
    has_ended: bool,
    skips: bool,
    given: [bool; OPTIONS],
}

// Whether a word begins with `-` and is longer than that.
fn is_dashed(word: &str) -> bool {
    word.starts_with('-') && word != "-"
}

impl<'a> Walk<'a> {
    // What is wrong with the next word that is no option.
    fn at_place(&mut self, alloc: Global, word: &str) -> Result<Option<String>, NoMemory> {
        let Some(place) = self.usage.places.get(self.places) else {
            return Ok(Some(format!(in alloc; "a word too many: {word}")?));
        };
        self.places = self.places.saturating_add(1);
        if place.takes(word) {
            return Ok(None);
        }
        let (name, value) = (place.name, place.value);
        Ok(Some(format!(in alloc; "{name} {word}: {value}")?))
    }

    // What is wrong with an option's value.
    fn at_value(
        &self,
        alloc: Global,
        form: &OptionForm,
        value: &str,
    ) -> Result<Option<String>, NoMemory> {
        let name = form.place.name;
        if form.place.takes(value) {
            return Ok(None);
        }
        let wanted = form.place.value;
        Ok(Some(format!(in alloc; "{name} {value}: {wanted}")?))
    }

    // What is wrong with an option's value that is the next word.
    fn at_next(
        &mut self,
        alloc: Global,
        form: &OptionForm,
        next: Option<&String>,
    ) -> Result<Option<String>, NoMemory> {
        let name = form.place.name;
        let Some(next) = next else {
            return Ok(Some(format!(in alloc; "{name}: its value is missing")?));
        };
        let value = next.as_str();
        if is_dashed(value) {
            return Ok(Some(format!(in alloc;
                "{name}: its value is missing, or is behind = where it begins with -"
            )?));
        }
        self.skips = true;
        self.at_value(alloc, form, value)
    }

    // Whether the option of a number was given before; from now on it was.
    fn gives_again(&mut self, number: usize) -> bool {
        match self.given.get_mut(number) {
            Some(given) => std::mem::replace(given, true),
            None => false,
        }
    }

    // What is said of an option that is given with another that it isn't given with.
    fn apart(&self, form: &OptionForm) -> Option<&'static str> {
        let (other, said) = form.apart?;
        if self.is_given(other) {
            Some(said)
        } else {
            None
        }
    }

    // What is wrong with an option, the word at a place.
    fn at_option(
        &mut self,
        alloc: Global,
        at: usize,
        word: &str,
    ) -> Result<Option<String>, NoMemory> {
        let (name, own) = match word.split_once('=') {
            Some((name, value)) => (name, Some(value)),
            None => (word, None),
        };
        let Some(form) = self.usage.option(name) else {
            let command = self.usage.name;
            return Ok(Some(format!(in alloc; "{name}: no option of {command}")?));
        };
        if self.gives_again(form.number) {
            return Ok(Some(format!(in alloc; "{name}: given twice")?));
        }
        if let Some(said) = self.apart(form) {
            return Ok(Some(format!(in alloc; "{said}")?));
        }
        match own {
            Some(value) => self.at_value(alloc, form, value),
            None => self.at_next(alloc, form, self.words.get(at.saturating_add(1))),
        }
    }

    // What is wrong with the word at a place, those before it looked at.
    fn at(&mut self, alloc: Global, at: usize, word: &str) -> Result<Option<String>, NoMemory> {
        if self.skips {
            self.skips = false;
            return Ok(None);
        }
        if self.has_ended || !is_dashed(word) {
            return self.at_place(alloc, word);
        }
        if word == "--" {
            self.has_ended = true;
            return Ok(None);
        }
        self.at_option(alloc, at, word)
    }

    fn is_given(&self, number: usize) -> bool {
        self.given.get(number).copied() == Some(true)
    }

    // What is said of an option that is given without another that it isn't given without.
    fn alone(&self) -> Option<&'static str> {
        for form in self.usage.options {
            if let Some((other, said)) = form.needs
                && self.is_given(form.number)
                && !self.is_given(other)
            {
                return Some(said);
            }
        }
        None
    }

    // What is said of two options that both write a file, which alone can be wrong of them where all else is right.
    fn one_file(&self) -> Option<&'static str> {
        for form in self.usage.options {
            if let Some((other, said)) = form.other_file
                && self.is_given(form.number)
                && self.is_given(other)
            {
                return Some(said);
            }
        }
        None
    }

    // What is wrong where no word is.
    fn at_end(&self, alloc: Global) -> Result<String, NoMemory> {
        if let Some(place) = self.usage.places.get(self.places) {
            let name = place.name;
            return Ok(format!(in alloc; "{name} is missing")?);
        }
        match self.alone().or(self.one_file()) {
            Some(said) => Ok(format!(in alloc; "{said}")?),
            None => Ok(format!(in alloc; "the words are no command")?),
        }
    }
}

// What is wrong with the words behind a command.
fn wrong_behind(
    alloc: Global,
    usage: &'static Usage,
    words: &[String],
) -> Result<String, NoMemory> {
    let mut walk = Walk {
        usage,
        words,
        places: 0,
        has_ended: false,
        skips: false,
        given: [false; OPTIONS],
    };
    for (at, word) in words.iter().enumerate() {
        if let Some(text) = walk.at(alloc, at, word.as_str())? {
            return Ok(text);
        }
    }
    walk.at_end(alloc)
}

// The command of this name, with its place.
fn usage_of(name: &str) -> Option<(usize, &'static Usage)> {
    for (place, usage) in USAGES.iter().enumerate() {
        if usage.name == name {
            return Some((place, usage));
        }
    }
    None
}

/// What is wrong with words that are no command, by the first of them that is. Its one refusal is want of memory.
pub fn what_is_wrong(alloc: Global, words: &[String]) -> Result<Wrong, NoMemory> {
    let Some((first, others)) = words.split_first() else {
        let text = format!(in alloc; "a command is missing")?;
        return Ok(Wrong {
            text,
            command: None,
        });
    };
    let name = first.as_str();
    let Some((place, usage)) = usage_of(name) else {
        let text = format!(in alloc; "{name}: no command")?;
        return Ok(Wrong {
            text,
            command: None,
        });
    };
    Ok(Wrong {
        text: wrong_behind(alloc, usage, others)?,
        command: Some(place),
    })
}
