ghost use Rattle.std.specs.Prelude.{◌≡◌, ◌<◌, ◌∷◌, [], ◌++◌, flat_map, OnOk};
ghost use Rattle.pl_printing.specs.Levels.{at_level};
ghost use Rattle.pl_printing.specs.Printed.{escaped, hex_digit, quoted};

use crate::lines::push_indentation;
use pl_base::{Memory, Text};

/// A text in double quotes.
pub fn push_quoted(output: &mut Vec<u8>, text: &[u8]) -> Result<(), Memory>
    ensures { OnOk result (output.new.items ≡ output.old.items ++ quoted text.now) }
{
    output.push(b'"')?;
    push_escaped_bytes(output, text)?;
    output.push(b'"')?;
    Ok(())
}

/// A scalar on a line of its own, at a level.
pub fn push_scalar(output: &mut Vec<u8>, level: usize, text: &Text) -> Result<(), Memory>
    ensures { OnOk result (output.new.items ≡ output.old.items ++
        at_level level (quoted text.now ∷ [])) }
{
    push_indentation(output, level)?;
    push_quoted(output, text.as_bytes())?;
    output.push(b'\n')?;
    Ok(())
}

/// The bytes of a text as they stand between double quotes.
fn push_escaped_bytes(output: &mut Vec<u8>, text: &[u8]) -> Result<(), Memory>
    ensures { OnOk result (output.new.items ≡ output.old.items ++ flat_map escaped text.now) }
{
    for byte in text {
        push_escaped(output, *byte)?;
    }
    Ok(())
}

/// A byte of a text as it stands between double quotes (YAML 1.2.2, section 5.7).
fn push_escaped(output: &mut Vec<u8>, byte: u8) -> Result<(), Memory>
    ensures { OnOk result (output.new.items ≡ output.old.items ++ escaped byte) }
{
    match byte {
        b'"' => output.extend_from_slice(b"\\\"")?,
        b'\\' => output.extend_from_slice(b"\\\\")?,
        b'\n' => output.extend_from_slice(b"\\n")?,
        b'\r' => output.extend_from_slice(b"\\r")?,
        b'\t' => output.extend_from_slice(b"\\t")?,
        0..=31 | 127 => {
            output.extend_from_slice(&[b'\\', b'x', hex_digit(byte / 16), hex_digit(byte % 16)])?
        }
        _ => output.push(byte)?,
    }
    Ok(())
}

/// A hexadecimal digit, the letters in upper case.
fn hex_digit(value: u8) -> u8
    requires { value < 16 }
    ensures { result ≡ hex_digit value }
{
    if value < 10 {
        b'0' + value
    } else {
        b'A' + (value - 10)
    }
}
