//! What the printers share: texts, numbers and separated lists behind what is written already.
ghost use Rattle.std.specs.Prelude.{◌≡◌, ◌++◌, ◌*◌, ◌∷◌, [], OnOk, replicate, decimal};
ghost use Rattle.std.specs.Fmt.{signed_decimal};
ghost use Rattle.c_text.specs.Printed.{indent};
ghost use Rattle.c_text.specs.Strings.{quoted, escaped, octal};
ghost use Rattle.c_text.specs.Types.{printed_value};

use itoa::Buffer;
use std::alloc::AllocError;

/// Appends four blanks for each level.
#[tactic(auto, using(crate::proofs::Equations::indents, std::proofs::lemmas::Grind::common_steps))]
pub(crate) fn print_indent(level: usize, out: &mut Vec<u8>) -> Result<(), AllocError>
    ensures { OnOk result (out.new.items ≡ out.old.items ++ indent level) }
{
    for _ in 0..level {
        out.extend_from_slice(b"    ")?;
    }
    Ok(())
}

/// Appends a number without a sign, in decimal digits.
pub(crate) fn print_length(length: u32, out: &mut Vec<u8>) -> Result<(), AllocError>
    ensures { OnOk result (out.new.items ≡ out.old.items ++ decimal length) }
{
    let mut digits = Buffer::new();
    out.extend_from_slice(digits.format(length).as_bytes())
}

/// Appends an integer with its sign, in decimal digits.
pub(crate) fn print_number(number: i32, out: &mut Vec<u8>) -> Result<(), AllocError>
    ensures { OnOk result (out.new.items ≡ out.old.items ++ signed_decimal number) }
{
    let mut digits = Buffer::new();
    out.extend_from_slice(digits.format(number).as_bytes())
}

/// Appends the value of a constant or of an element of an image: an integer with its sign, the
/// least integer as a difference in parentheses.
pub(crate) fn print_value(value: i32, out: &mut Vec<u8>) -> Result<(), AllocError>
    ensures { OnOk result (out.new.items ≡ out.old.items ++ printed_value value) }
{
    if value == i32::MIN {
        return out.extend_from_slice(b"(-2147483647 - 1)");
    }
    print_number(value, out)
}

/// Appends a byte of a string by its octal digits.
fn print_octal(byte: u8, out: &mut Vec<u8>) -> Result<(), AllocError>
    ensures { OnOk result (out.new.items ≡ out.old.items ++ (92 ∷ octal byte)) }
{
    out.push(b'\\')?;
    out.push(48 + byte / 64)?;
    out.push(48 + byte / 8 % 8)?;
    out.push(48 + byte % 8)?;
    Ok(())
}

/// Appends one byte of a string: itself where it may stand there, else by a backslash.
fn print_escaped(before: u8, byte: u8, out: &mut Vec<u8>) -> Result<(), AllocError>
    ensures { OnOk result (out.new.items ≡ out.old.items ++ escaped before byte) }
{
    if before == b'?' && byte == b'?' {
        return print_octal(byte, out);
    }
    match byte {
        b'"' | b'\\' => {
            out.push(b'\\')?;
            out.push(byte)?
        }
        32..=126 => out.push(byte)?,
        _ => print_octal(byte, out)?,
    }
    Ok(())
}

/// Appends a string in double quotes.
pub(crate) fn print_string(bytes: &[u8], out: &mut Vec<u8>) -> Result<(), AllocError>
    ensures { OnOk result (out.new.items ≡ out.old.items ++ quoted bytes.now) }
{
    out.push(b'"')?;
    let mut before = 0u8;
    for byte in bytes {
        print_escaped(before, *byte, out)?;
        before = *byte;
    }
    out.push(b'"')?;
    Ok(())
}
