//! Texts in JSON.
ghost use Rattle.std.specs.Prelude.{◌≡◌, ◌<◌, ◌++◌, ◌∷◌, ◌/◌, ◌%◌, OnOk, [], codes};
ghost use Rattle.std.specs.Char.{digit_char};
ghost use Rattle.blob_json.specs.Json.{escaped, quoted};

use std::alloc::AllocError;

/// Returns the hex digit of a value below 16.
fn digit_of(value: u8) -> u8
    requires { value < 16 }
    ensures { result ≡ digit_char value }
{
    if value < 10 {
        b'0' + value
    } else {
        b'a' + (value - 10)
    }
}

/// Appends a control character that has no short form.
fn push_control(byte: u8, to: &mut Vec<u8>) -> Result<(), AllocError>
    ensures { OnOk result (to.new.items ≡ to.old.items ++ codes "\\u00" ++ digit_char (byte / 16) ∷ digit_char (byte % 16) ∷ []) }
{
    to.extend_from_slice(b"\\u00")?;
    to.push(digit_of(byte / 16))?;
    to.push(digit_of(byte % 16))?;
    Ok(())
}

/// Appends a byte of a text.
fn push_byte(byte: u8, to: &mut Vec<u8>) -> Result<(), AllocError>
    ensures { OnOk result (to.new.items ≡ to.old.items ++ escaped byte) }
{
    match byte {
        b'"' => to.extend_from_slice(b"\\\"")?,
        b'\\' => to.extend_from_slice(b"\\\\")?,
        8 => to.extend_from_slice(b"\\b")?,
        9 => to.extend_from_slice(b"\\t")?,
        10 => to.extend_from_slice(b"\\n")?,
        12 => to.extend_from_slice(b"\\f")?,
        13 => to.extend_from_slice(b"\\r")?,
        0..32 => push_control(byte, to)?,
        _ => to.push(byte)?,
    }
    Ok(())
}

/// Appends a text in quotes. Quotes, backslashes and control characters are escaped; any other character stands for itself.
pub fn push_text(text: &[u8], to: &mut Vec<u8>) -> Result<(), AllocError>
    ensures { OnOk result (to.new.items ≡ to.old.items ++ quoted text.now) }
{
    to.push(b'"')?;
    for byte in text {
        push_byte(*byte, to)?;
    }
    to.push(b'"')?;
    Ok(())
}
