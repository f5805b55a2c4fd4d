// Words for numbers and for sectors.
use crate::rows::split;

// Where inodes, segments of the bitmap, small and large blocks begin on a disk.
const FIRST_INODE: u64 = 10_737_418_240;

const FIRST_SEGMENT: u64 = 4_294_967_296;

const FIRST_SMALL: u64 = 12_884_901_888;

const FIRST_LARGE: u64 = 287_762_808_832;

/// The number by its decimal digits.
pub fn number(word: &str) -> Option<u64> {
    word.parse::<u64>().ok()
}

/// The same, and another number where there is no word.
pub fn number_or(word: &str, otherwise: u64) -> Option<u64> {
    if word.is_empty() {
        Some(otherwise)
    } else {
        number(word)
    }
}

/// The byte by its two hexadecimal digits, and zero where there are none.
pub fn byte(digits: &str) -> Option<u8> {
    let mut byte = [0];
    if digits.is_empty() || hex::decode_to_slice(digits, &mut byte).is_ok() {
        Some(byte[0])
    } else {
        None
    }
}

/// A sector by its number, or by what lies there: `i5` is inode 5, `k1` segment 1 of the bitmap, `s4` the first sector of small block 4, `s4.1` its
/// second one, and `l2.7` the eighth one of large block 2.
pub fn sector(word: &str) -> Option<u64> {
    if let Some(inode) = word.strip_prefix("i") {
        return FIRST_INODE.checked_add(number(inode)?);
    }
    if let Some(segment) = word.strip_prefix("k") {
        return FIRST_SEGMENT.checked_add(number(segment)?);
    }
    if let Some(small) = word.strip_prefix("s") {
        return part_of(FIRST_SMALL, 8, small);
    }
    if let Some(large) = word.strip_prefix("l") {
        return part_of(FIRST_LARGE, 2_147_483_648, large);
    }
    number(word)
}

// A part of one of the things that lie so far apart from the first on, the first part where none is told.
fn part_of(first: u64, apart: u64, word: &str) -> Option<u64> {
    let (thing, part) = split(word, ".");
    let from = number(thing)?.checked_mul(apart)?;
    first.checked_add(from)?.checked_add(number_or(part, 0)?)
}
