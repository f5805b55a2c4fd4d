// Names and paths of a soak.
ghost use Rattle.std.specs.Prelude.{◌≡◌, ◌<◌, true, IfOk};
ghost use Rattle.frang_base.specs.Name.{is_name};
ghost use Rattle.frang_soak.specs.Scripts.{directory, in_directory, numbered};

use frang_base::{Name, NoMemory, Path};
use std::alloc::Global;

/// The path of a server's own directory. The server is less than 100.
pub(crate) fn directory(alloc: Global, server: u8) -> Result<Path, NoMemory>
    requires { server < 100 }
    ensures { IfOk result (λ path. path ≡ directory server) }
{
    let mut path = Path::new(alloc);
    path.push(numbered(b'w', server))?;
    Ok(path)
}

/// The path of a file in a server's own directory, by the letter and the number of its name. The server and the number are
/// less than 100.
pub(crate) fn in_directory(
    alloc: Global,
    server: u8,
    letter: u8,
    file: u8,
) -> Result<Path, NoMemory>
    requires server { server < 100 }
    requires above_digits { 64 < letter }
    requires below_delete { letter < 127 }
    requires file { file < 100 }
    ensures { IfOk result (λ path. path ≡ in_directory server letter file) }
{
    let mut path = directory(alloc, server)?;
    path.push(numbered(letter, file))?;
    Ok(path)
}

// The name of a letter and a number.
#[tactic(auto, using(crate::proofs::Numbering::one_digit, crate::proofs::Numbering::two_digits, crate::proofs::Numbering::is_name_one, crate::proofs::Numbering::is_name_two))]
fn numbered(letter: u8, number: u8) -> Name
    requires above_digits { 64 < letter }
    requires below_delete { letter < 127 }
    requires two_digits { number < 100 }
    ensures { result ≡ numbered letter number }
{
    if number < 10 {
        name_of(&[letter, b'0' + number])
    } else {
        name_of(&[letter, b'0' + number / 10, b'0' + number % 10])
    }
}

fn name_of(bytes: &[u8]) -> Name
    requires { is_name bytes.now ≡ true }
    ensures { result ≡ bytes.now }
{
    match Name::of(bytes) {
        Some(name) => name,
        None => unreachable!(),
    }
}
