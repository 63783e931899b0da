//! Names and texts, byte by byte.
ghost use Rattle.std.specs.Prelude.{◌≡◌, ◌<◌, ◌++◌, OnOk, string_bytes};
ghost use Rattle.std.specs.List.{flat_map};
ghost use Rattle.haskell_module.specs.Names.{hex_digit, is_plain, name_piece, name_text, is_printed, literal_piece, literal_text};

use hs_base::Txt;
use std::alloc::AllocError;

fn hex_digit(digit: u8) -> char
    requires { digit < 16 }
    ensures { result ≡ hex_digit digit }
{
    if digit < 10 {
        char::from(48 + digit)
    } else {
        char::from(87 + digit)
    }
}

fn is_plain(byte: u8) -> bool
    ensures { result ≡ is_plain byte }
{
    byte.is_ascii_alphanumeric() || byte == b'_'
}

fn write_name_piece(text: &mut String, byte: u8) -> Result<(), AllocError>
    ensures { OnOk result (string_bytes text.new ≡ string_bytes text.old ++ name_piece byte) }
{
    if is_plain(byte) {
        return text.push(char::from(byte));
    }
    if byte == b'\'' {
        return text.push_str("''");
    }
    text.push_str("'")?;
    text.push(hex_digit(byte / 16))?;
    text.push(hex_digit(byte % 16))
}

fn write_name_pieces(text: &mut String, bytes: &[u8]) -> Result<(), AllocError>
    ensures { OnOk result (string_bytes text.new ≡ string_bytes text.old ++ flat_map name_piece bytes.now) }
{
    for byte in bytes {
        write_name_piece(text, *byte)?;
    }
    Ok(())
}

/// A name of the script as one of the module.
pub(crate) fn write_name(text: &mut String, name: &Txt) -> Result<(), AllocError>
    ensures { OnOk result (string_bytes text.new ≡ string_bytes text.old ++ name_text name.now) }
{
    text.push_str("v_")?;
    write_name_pieces(text, name.as_str().as_bytes())
}

fn is_printed(byte: u8) -> bool
    ensures { result ≡ is_printed byte }
{
    31 < byte && byte < 127 && byte != b'"' && byte != b'\\'
}

fn write_literal_piece(text: &mut String, byte: u8) -> Result<(), AllocError>
    ensures { OnOk result (string_bytes text.new ≡ string_bytes text.old ++ literal_piece byte) }
{
    if is_printed(byte) {
        return text.push(char::from(byte));
    }
    write!(text, "\\{byte}\\&")
}

fn write_literal_pieces(text: &mut String, bytes: &[u8]) -> Result<(), AllocError>
    ensures { OnOk result (string_bytes text.new ≡ string_bytes text.old ++ flat_map literal_piece bytes.now) }
{
    for byte in bytes {
        write_literal_piece(text, *byte)?;
    }
    Ok(())
}

/// A text of the script as a literal.
pub(crate) fn write_literal(text: &mut String, content: &Txt) -> Result<(), AllocError>
    ensures { OnOk result (string_bytes text.new ≡ string_bytes text.old ++ literal_text content.now) }
{
    text.push_str("\"")?;
    write_literal_pieces(text, content.as_str().as_bytes())?;
    text.push_str("\"")
}
