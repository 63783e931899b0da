//! How what came is shown where a row wants something else.

use crate::flaw::Flaw;
use std::alloc::{AllocError, Global};

/// How much of a text is shown.
const SHOWN: usize = 120;

/// A problem of these words.
pub fn says(alloc: Global, text: &str) -> Result<Option<String>, Flaw> {
    Ok(Some(String::from_str(alloc, text)?))
}

/// Bytes as a text in quotes, of which the first are shown.
pub fn shown(alloc: Global, bytes: &[u8]) -> Result<String, AllocError> {
    let mut text = String::new(alloc);
    text.push('"')?;
    for byte in bytes.iter().take(SHOWN) {
        push_shown(alloc, &mut text, *byte)?;
    }
    text.push('"')?;
    if bytes.len() > SHOWN {
        let length = bytes.len();
        text.push_str(format!(in alloc; " and on to {length} bytes")?.as_str())?;
    }
    Ok(text)
}

fn push_shown(alloc: Global, text: &mut String, byte: u8) -> Result<(), AllocError> {
    match byte {
        b'\n' => text.push_str("\\n"),
        b'"' => text.push_str("\\\""),
        b'\\' => text.push_str("\\\\"),
        b' '..=b'~' => text.push(char::from(byte)),
        byte => text.push_str(format!(in alloc; "\\x{byte:02X}")?.as_str()),
    }
}
