//! Characters that XML reads as something else, or can't have.
ghost use Rattle.std.specs.Prelude.{◌≡◌, ◌++◌, OnOk, encode_utf8, string_bytes};
ghost use Rattle.lane_picture.specs.svg.Escaping.{escaped, escaped_char, shown_char};

use std::alloc::AllocError;

/// A character that XML 1.0 can have: a control character is shown by its picture, and U+FFFE and U+FFFF by U+FFFD.
fn shown(c: char) -> char
    ensures { result ≡ shown_char c }
{
    let code = c as u32;
    if code < 32 {
        return char::from_u32(0x2400 + code).unwrap_or('\u{2400}');
    }
    if code == 127 {
        return '\u{2421}';
    }
    if code == 0xFFFE || code == 0xFFFF {
        return '\u{FFFD}';
    }
    c
}

fn push_char(text: &mut String, c: char) -> Result<(), AllocError>
    ensures { OnOk result (string_bytes text.new ≡ string_bytes text.old ++ escaped_char c) }
{
    if c == '&' {
        text.push_str("&amp;")
    } else if c == '<' {
        text.push_str("&lt;")
    } else if c == '>' {
        text.push_str("&gt;")
    } else if c == '"' {
        text.push_str("&quot;")
    } else if c == '\'' {
        text.push_str("&#39;")
    } else {
        text.push(shown(c))
    }
}

/// Appends a text as it stands between tags and in attributes, in single or in double quotes. Where memory runs out part of
/// it may have been appended.
pub fn push_escaped(text: &mut String, plain: &str) -> Result<(), AllocError>
    ensures { OnOk result (string_bytes text.new ≡ string_bytes text.old ++ escaped plain.now) }
{
    for c in plain.chars() {
        push_char(text, c)?;
    }
    Ok(())
}
