//! Names with a number.

ghost use Rattle.std.specs.Prelude.{◌≡◌, ◌+◌, ◌<◌, ◌≤◌, length, IfOk};
ghost use Rattle.split_pieces.specs.ChosenNames.{three_digits, numbered};

use f2c_outside::texts::{Name, NameFail, NoMemory};
use std::alloc::{AllocError, Global};

/// A digit.
fn digit(value: u16) -> u8
    requires { value < 10 }
    ensures { result ≡ 48 + value }
{
    b'0' + value as u8
}

/// The three digits of a number.
#[tactic(auto, unfolding(split_pieces::specs::ChosenNames::three_digits))]
fn three_digits(number: u16) -> [u8; 3]
    requires { number < 1000 }
    ensures { result ≡ three_digits number }
{
    [
        digit(number / 100),
        digit(number / 10 % 10),
        digit(number % 10),
    ]
}

/// The bytes of a name with a number.
#[tactic(auto, unfolding(split_pieces::specs::ChosenNames::numbered))]
fn bytes_of(alloc: Global, prefix: &[u8], number: u16) -> Result<Vec<u8>, AllocError>
    requires { number < 1000 }
    ensures { IfOk result (λ bytes. bytes.items ≡ numbered prefix.now number) }
{
    let mut bytes = Vec::from_slice(alloc, prefix)?;
    bytes.extend_from_slice(&three_digits(number))?;
    bytes.extend_from_slice(b".f")?;
    Ok(bytes)
}

/// The name with a number.
pub(crate) fn numbered(alloc: Global, prefix: &[u8], number: u16) -> Result<Name, NoMemory>
    requires short { length prefix.now ≤ 6 }
    requires low { number < 1000 }
    ensures { IfOk result (λ name. name ≡ numbered prefix.now number) }
{
    let bytes = bytes_of(alloc, prefix, number)?;
    match Name::new(alloc, &bytes) {
        Ok(name) => Ok(name),
        Err(NameFail::NoMemory) => Err(NoMemory),
        Err(NameFail::BadName) => unreachable!(),
    }
}
