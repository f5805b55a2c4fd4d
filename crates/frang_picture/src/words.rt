// The words of the command line: a file of said lines, and two options in any place, each `--name value` or `--name=value` and at most once; `--` ends them. A word that begins with `-` and is
// longer than that stands only behind `=` or `--`.

/// What the words ask: the file of said lines, that of the script, and that of the picture.
#[derive(Clone, Copy)]
pub struct Words<'a> {
    pub said: &'a str,
    pub script: Option<&'a str>,
    pub out: Option<&'a str>,
}

// What a word may be.
#[derive(Clone, Copy)]
enum Place {
    Said,
    Script,
    Out,
}

// What was read of the words: what they give, the option whose value is the next word, and whether options have ended.
#[derive(Clone, Copy)]
struct Reading<'a> {
    said: Option<&'a str>,
    script: Option<&'a str>,
    out: Option<&'a str>,
    awaited: Option<Place>,
    has_ended: bool,
}

fn is_dashed(word: &str) -> bool {
    word.starts_with('-') && word != "-"
}

fn option_named(name: &str) -> Option<Place> {
    match name {
        "--script" => Some(Place::Script),
        "--out" => Some(Place::Out),
        _ => None,
    }
}

// A word in its place, which has none yet.
fn put<'a>(reading: Reading<'a>, place: Place, word: &'a str) -> Option<Reading<'a>> {
    let mut next = reading;
    next.awaited = None;
    let before = match place {
        Place::Said => std::mem::replace(&mut next.said, Some(word)),
        Place::Script => std::mem::replace(&mut next.script, Some(word)),
        Place::Out => std::mem::replace(&mut next.out, Some(word)),
    };
    match before {
        Some(_) => None,
        None => Some(next),
    }
}

// A word that begins with `-`, before the options have ended.
fn dashed<'a>(reading: Reading<'a>, word: &'a str) -> Option<Reading<'a>> {
    let mut next = reading;
    if word == "--" {
        next.has_ended = true;
        return Some(next);
    }
    match word.split_once('=') {
        Some((name, value)) => put(reading, option_named(name)?, value),
        None => {
            next.awaited = Some(option_named(word)?);
            Some(next)
        }
    }
}

// One word more.
fn read<'a>(reading: Reading<'a>, word: &'a str) -> Option<Reading<'a>> {
    match reading.awaited {
        Some(_) if is_dashed(word) => None,
        Some(place) => put(reading, place, word),
        None if reading.has_ended || !is_dashed(word) => put(reading, Place::Said, word),
        None => dashed(reading, word),
    }
}

/// What the words after the program's name ask. `None` where they are none of its own.
pub fn words_of<'a>(given: &'a [String]) -> Option<Words<'a>> {
    let mut reading = Reading {
        said: None,
        script: None,
        out: None,
        awaited: None,
        has_ended: false,
    };
    for word in given {
        reading = read(reading, word.as_str())?;
    }
    match reading.awaited {
        Some(_) => None,
        None => Some(Words {
            said: reading.said?,
            script: reading.script,
            out: reading.out,
        }),
    }
}
