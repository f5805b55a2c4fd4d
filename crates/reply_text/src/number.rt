// Pieces of which lines are made. Each adds its bytes at the end.
ghost use Rattle.std.specs.Prelude.{◌≡◌, ◌++◌, ◌<◌, OnOk};
ghost use Rattle.std.specs.Fmt.{decimal};
ghost use Rattle.std.specs.List.{flat_map};
ghost use Rattle.tree_definitions.specs.SaidLines.{hex_digit, hex_byte, spaced, bytes_text, run_point};

use frang_base::{Name, NoMemory};
use itoa::Buffer;

/// Adds words as they are. After `NoMemory` nothing was added.
pub fn write_words(words: &[u8], to: &mut Vec<u8>) -> Result<(), NoMemory>
    ensures { OnOk result (to.new.items ≡ to.old.items ++ words.now) }
{
    to.extend_from_slice(words)?;
    Ok(())
}

/// Adds a number in decimal digits. After `NoMemory` nothing was added.
pub fn write_number(n: u64, to: &mut Vec<u8>) -> Result<(), NoMemory>
    ensures { OnOk result (to.new.items ≡ to.old.items ++ decimal n) }
{
    to.extend_from_slice(Buffer::new().format(n).as_bytes())?;
    Ok(())
}

/// Adds a blank, and then words. After `NoMemory` a blank may stand at the end.
pub fn write_after_blank(words: &[u8], to: &mut Vec<u8>) -> Result<(), NoMemory>
    ensures { OnOk result (to.new.items ≡ to.old.items ++ spaced words.now) }
{
    to.push(b' ')?;
    to.extend_from_slice(words)?;
    Ok(())
}

/// Adds a blank, and then a number. After `NoMemory` a blank may stand at the end.
pub fn write_count(n: u32, to: &mut Vec<u8>) -> Result<(), NoMemory>
    ensures { OnOk result (to.new.items ≡ to.old.items ++ spaced (decimal n)) }
{
    to.push(b' ')?;
    write_number(u64::from(n), to)
}

// Words, and then a number.
pub fn write_numbered(words: &[u8], n: u32, to: &mut Vec<u8>) -> Result<(), NoMemory>
    ensures { OnOk result (to.new.items ≡ to.old.items ++ (words.now ++ decimal n)) }
{
    write_words(words, to)?;
    write_number(u64::from(n), to)
}

// A run, and a line or a tick of it.
#[tactic(auto, unfolding(tree_definitions::specs::SaidLines::run_point))]
pub fn write_point(run: u64, n: u64, to: &mut Vec<u8>) -> Result<(), NoMemory>
    ensures { OnOk result (to.new.items ≡ to.old.items ++ run_point run n) }
{
    write_number(run, to)?;
    to.push(b'.')?;
    write_number(n, to)
}

fn hex_digit(d: u8) -> u8
    requires { d < 16 }
    ensures { result ≡ hex_digit d }
{
    if d < 10 { b'0' + d } else { b'a' - 10 + d }
}

/// Adds bytes by two lower-case hexadecimal digits each. After `NoMemory` some of the digits may stand at the end.
pub fn write_hex(bytes: &[u8], to: &mut Vec<u8>) -> Result<(), NoMemory>
    ensures { OnOk result (to.new.items ≡ to.old.items ++ flat_map hex_byte bytes.now) }
{
    for byte in bytes {
        to.push(hex_digit(*byte / 16))?;
        to.push(hex_digit(*byte % 16))?;
    }
    Ok(())
}

// A blank and hexadecimal digits, where there are bytes.
pub fn write_bytes(bytes: &[u8], to: &mut Vec<u8>) -> Result<(), NoMemory>
    ensures { OnOk result (to.new.items ≡ to.old.items ++ bytes_text bytes.now) }
{
    match bytes {
        [] => Ok(()),
        [_, ..] => {
            to.push(b' ')?;
            write_hex(bytes, to)
        }
    }
}

// A blank and a name, for each.
pub fn write_names(names: &[Name], to: &mut Vec<u8>) -> Result<(), NoMemory>
    ensures { OnOk result (to.new.items ≡ to.old.items ++ flat_map spaced names.now) }
{
    for name in names {
        write_after_blank(name.as_slice(), to)?;
    }
    Ok(())
}
