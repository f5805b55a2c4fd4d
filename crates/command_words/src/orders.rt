// Numbers of 64 bits: the order of events that a run is asked for, and the number of a soak.
ghost use Rattle.std.specs.Prelude.{◌≡◌, ◌-◌, ◌^◌, true};
ghost use Rattle.std.specs.List.{list_all};
ghost use Rattle.script_definitions.specs.Numerals.{is_digit, is_numeral};
ghost use Rattle.command_words.specs.Commands.{order_in, wide_number};
ghost use Rattle.command_words.specs.Views.{text_of};

fn are_digits(text: &[u8]) -> bool
    ensures { result ≡ list_all is_digit text.now }
{
    text.iter().all(|byte| byte.is_ascii_digit())
}

fn is_digit(byte: u8) -> bool
    ensures { result ≡ is_digit byte }
{
    byte >= b'0' && byte <= b'9'
}

fn is_numeral(word: &[u8]) -> bool
    ensures { result ≡ is_numeral word.now }
{
    match word {
        [] => false,
        [digit] => is_digit(*digit),
        [first, rest @ ..] => is_digit(*first) && *first != b'0' && are_digits(rest),
    }
}

// The number that a numeral writes, if it has 64 bits.
#[tactic(auto, using(crate::proofs::Numbers::parsed))]
fn numeral_value(digits: &str) -> Option<u64>
    requires { is_numeral digits.now ≡ true }
    ensures { result ≡ wide_number digits.now }
{
    digits.parse::<u64>().ok()
}

/// The number that a word writes in decimal digits without a leading zero, if it has 64 bits.
pub fn wide_number(word: &str) -> Option<u64>
    ensures { result ≡ wide_number word.now }
{
    if is_numeral(word.as_bytes()) {
        numeral_value(word)
    } else {
        None
    }
}

/// The order that is asked for, where one is. `None` exactly where a word is no order.
pub fn order_in(value: Option<&str>) -> Option<Option<u64>>
    ensures { result ≡ order_in (text_of value.entry) }
{
    match value {
        None => Some(None),
        Some(value) => {
            let order = wide_number(value)?;
            Some(Some(order))
        }
    }
}
