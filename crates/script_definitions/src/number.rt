// Numbers as words.
ghost use Rattle.std.specs.Prelude.{◌≡◌, ◌≤◌, ◌^◌, true, Some, None, nat_lt, if◌then◌else◌};
ghost use Rattle.script_definitions.specs.Numerals.{is_digit, is_numeral, numeral_value, number_in, count_at};
ghost use Rattle.std.specs.List.{list_all};

fn are_digits(text: &[u8]) -> bool
    ensures { result ≡ list_all is_digit text.now }
{
    text.iter().all(|byte| byte.is_ascii_digit())
}

fn is_digit(byte: u8) -> bool
    ensures { result ≡ is_digit byte }
{
    byte >= b'0' && byte <= b'9'
}

fn is_numeral(word: &[u8]) -> bool
    ensures { result ≡ is_numeral word.now }
{
    match word {
        [] => false,
        [digit] => is_digit(*digit),
        [first, rest @ ..] => is_digit(*first) && *first != b'0' && are_digits(rest),
    }
}

// The number of a numeral, if it has 32 bits.
#[tactic(auto, using(crate::proofs::NumeralLaws::parsed, crate::proofs::NumeralLaws::numeral_utf8))]
fn numeral_value(digits: &[u8]) -> Option<u32>
    requires { is_numeral digits.now ≡ true }
    ensures { result ≡ (if nat_lt (numeral_value digits.now) (2 ^ 32) then Some (numeral_value digits.now) else None) }
{
    match str::from_utf8(digits) {
        Ok(digits) => digits.parse::<u32>().ok(),
        Err(_) => None,
    }
}

/// The number that a word writes in decimal digits without a leading zero, if it is one from `low` to `high`.
pub fn number_within(word: &[u8], low: u32, high: u32) -> Option<u32>
    ensures { result ≡ number_in low high word.now }
{
    if !is_numeral(word) {
        return None;
    }
    let number = numeral_value(word)?;
    (low <= number && number <= high).then_some(number)
}

/// The number that a word writes, if it has 32 bits.
pub fn count(word: &[u8]) -> Option<u32>
    ensures { result ≡ count_at word.now }
{
    number_within(word, 0, u32::MAX)
}
