// What is at hand, by the words of a setting: names of held segments, `all` where these are said to be all, `none` where there are none, `-i5` for
// a sector that isn't cached, and `@3.600` for tick 600 of run 3.
use frang_base::limits::RUN_TICKS_END;
use frang_base::{NoMemory, Sector};
use meta_version::Sectors;
use test_tables::{has_word, number, sector, split};

/// Whether the held segments are said to be all.
pub fn are_all(setting: &str) -> bool {
    has_word(setting, "all")
}

/// Whether a word of a setting means no segment.
pub(crate) fn is_no_segment(word: &str) -> bool {
    word == "all" || word == "none" || word.starts_with("-") || word.starts_with("@")
}

/// Leaves out the sectors that aren't cached. What is no sector's name is refused.
pub fn leave_out(sectors: &mut Sectors, setting: &str) -> Result<(), NoMemory> {
    for word in setting.split_whitespace() {
        if let Some(name) = word.strip_prefix("-") {
            match sector(name) {
                Some(missing) => sectors.remove(Sector(missing)),
                None => return Err(NoMemory),
            }
        }
    }
    Ok(())
}

/// Leaves out the sectors that aren't cached, by a setting of nothing else but one of these words. Another word is refused.
pub fn leave_out_but(sectors: &mut Sectors, setting: &str, words: &str) -> Result<(), NoMemory> {
    for word in setting.split_whitespace() {
        if !word.starts_with("-") && !has_word(words, word) {
            return Err(NoMemory);
        }
    }
    leave_out(sectors, setting)
}

/// The time of a setting, and this one where it has none. What is no time is refused.
pub fn when_of(setting: &str, otherwise: u64) -> Result<u64, NoMemory> {
    for word in setting.split_whitespace() {
        if let Some(time) = word.strip_prefix("@") {
            return match time_of(time) {
                Some(time) => Ok(time),
                None => Err(NoMemory),
            };
        }
    }
    Ok(otherwise)
}

fn time_of(time: &str) -> Option<u64> {
    let (run, tick) = split(time, ".");
    number(run)?
        .checked_mul(RUN_TICKS_END)?
        .checked_add(number(tick)?)
}
