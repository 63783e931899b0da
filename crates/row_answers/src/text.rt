//! Texts of a row: what a row's lines spell, byte for byte. A part that is repeated is kept once.

use crate::flaw::Flaw;
use std::alloc::{AllocError, Global};

/// What stands at one place of a text.
#[derive(Clone, Copy)]
pub enum Letter {
    Byte(u8),
    /// The number of the repetition, from 1.
    Count,
    /// The number of the repetition, from 0.
    Before,
    /// The byte of the case.
    Case,
}

/// Letters that stand so many times.
#[derive(Drop)]
struct TextPiece {
    times: usize,
    letters: Vec<Letter>,
}

/// Pieces, one after the other.
#[derive(Drop)]
pub struct Text {
    alloc: Global,
    pieces: Vec<TextPiece>,
}

impl Text {
    pub fn new(alloc: Global) -> Text {
        Text {
            alloc,
            pieces: Vec::new(alloc),
        }
    }

    /// These letters, once.
    fn once(alloc: Global, letters: Vec<Letter>) -> Result<Text, AllocError> {
        let mut text = Text::new(alloc);
        text.pieces.push(TextPiece { times: 1, letters })?;
        Ok(text)
    }

    pub fn is_empty(&self) -> bool {
        self.pieces.is_empty()
    }

    /// Adds bytes as they stand.
    pub fn add(&mut self, bytes: &[u8]) -> Result<(), AllocError> {
        let mut letters = Vec::with_capacity(self.alloc, bytes.len())?;
        for byte in bytes {
            letters.push(Letter::Byte(*byte))?;
        }
        self.pieces.push(TextPiece { times: 1, letters })?;
        Ok(())
    }

    /// Adds what a text in quotes says, so many times.
    pub fn add_quoted(&mut self, times: usize, quoted: &str) -> Result<(), Flaw> {
        let letters = letters_of(self.alloc, quoted)?;
        self.pieces.push(TextPiece { times, letters })?;
        Ok(())
    }

    /// The bytes that the text spells where the case has this byte.
    pub fn spell(&self, case: u8) -> Result<Vec<u8>, AllocError> {
        let mut bytes = Vec::new(self.alloc);
        for piece in &self.pieces {
            for before in 0..piece.times {
                spell_once(self.alloc, &mut bytes, &piece.letters, before, case)?;
            }
        }
        Ok(bytes)
    }
}

fn spell_once(
    alloc: Global,
    bytes: &mut Vec<u8>,
    letters: &[Letter],
    before: usize,
    case: u8,
) -> Result<(), AllocError> {
    for letter in letters {
        match letter {
            Letter::Byte(byte) => bytes.push(*byte)?,
            Letter::Case => bytes.push(case)?,
            Letter::Before => push_number(alloc, bytes, before)?,
            Letter::Count => push_number(alloc, bytes, before.saturating_add(1))?,
        }
    }
    Ok(())
}

fn push_number(alloc: Global, bytes: &mut Vec<u8>, number: usize) -> Result<(), AllocError> {
    let digits = format!(in alloc; "{number}")?;
    bytes.extend_from_slice(digits.as_bytes())
}

/// Where the reading of a text in quotes stands.
#[derive(Clone, Copy)]
enum Reading {
    Start,
    Inside,
    /// After a backslash.
    Escape,
    /// After `\x`.
    Hex,
    /// After `\x` and a digit of this value.
    HexDigit(u8),
    /// After the last quote.
    End,
}

const ESCAPES: [(u8, Letter); 8] = [
    (b'n', Letter::Byte(b'\n')),
    (b'r', Letter::Byte(b'\r')),
    (b't', Letter::Byte(b'\t')),
    (b'\\', Letter::Byte(b'\\')),
    (b'"', Letter::Byte(b'"')),
    (b'i', Letter::Count),
    (b'p', Letter::Before),
    (b'?', Letter::Case),
];

/// What a text in quotes says.
pub fn letters_of(alloc: Global, quoted: &str) -> Result<Vec<Letter>, Flaw> {
    let mut letters = Vec::new(alloc);
    let mut reading = Reading::Start;
    for byte in quoted.as_bytes() {
        let (letter, next) = read_byte(reading, *byte)?;
        if let Some(letter) = letter {
            letters.push(letter)?;
        }
        reading = next;
    }
    match reading {
        Reading::End => Ok(letters),
        _ => Err(Flaw::Says("a text in quotes is wanted here")),
    }
}

/// The texts in quotes that stand here, with a blank between two of them.
pub fn texts_of(alloc: Global, quoted: &str) -> Result<Vec<Text>, Flaw> {
    let mut texts = Vec::new(alloc);
    let mut letters = Vec::new(alloc);
    let mut reading = Reading::Start;
    for byte in quoted.as_bytes() {
        if is_between(reading, *byte) {
            texts.push(Text::once(alloc, letters)?)?;
            letters = Vec::new(alloc);
            reading = Reading::Start;
        } else {
            let (letter, next) = read_byte(reading, *byte)?;
            if let Some(letter) = letter {
                letters.push(letter)?;
            }
            reading = next;
        }
    }
    match reading {
        Reading::End => {
            texts.push(Text::once(alloc, letters)?)?;
            Ok(texts)
        }
        _ => Err(Flaw::Says("a text in quotes is wanted here")),
    }
}

// Whether another text in quotes may follow the byte.
fn is_between(reading: Reading, byte: u8) -> bool {
    matches!(reading, Reading::End) && byte == b' '
}

// The letter that the byte completes, if any, and how the reading goes on.
fn read_byte(reading: Reading, byte: u8) -> Result<(Option<Letter>, Reading), Flaw> {
    match reading {
        Reading::Start if byte == b'"' => Ok((None, Reading::Inside)),
        Reading::Start => Err(Flaw::Says("a text in quotes is wanted here")),
        Reading::End => Err(Flaw::Says("something stands after the text in quotes")),
        Reading::Inside => match byte {
            b'"' => Ok((None, Reading::End)),
            b'\\' => Ok((None, Reading::Escape)),
            _ => Ok((Some(Letter::Byte(byte)), Reading::Inside)),
        },
        Reading::Escape if byte == b'x' => Ok((None, Reading::Hex)),
        Reading::Escape => Ok((Some(escaped(byte)?), Reading::Inside)),
        Reading::Hex => Ok((None, Reading::HexDigit(hex_digit(byte)?))),
        Reading::HexDigit(high) => {
            let byte = high.wrapping_mul(16).wrapping_add(hex_digit(byte)?);
            Ok((Some(Letter::Byte(byte)), Reading::Inside))
        }
    }
}

fn escaped(byte: u8) -> Result<Letter, Flaw> {
    for (name, letter) in &ESCAPES {
        if *name == byte {
            return Ok(*letter);
        }
    }
    Err(Flaw::Says("a backslash stands before n, r, t, \\, \", i, p, ? or xHH"))
}

/// What a hexadecimal digit counts, be it a capital or a small letter.
pub fn hex_digit(byte: u8) -> Result<u8, Flaw> {
    match byte {
        b'0'..=b'9' => Ok(byte.wrapping_sub(b'0')),
        b'A'..=b'F' => Ok(byte.wrapping_sub(b'A').wrapping_add(10)),
        b'a'..=b'f' => Ok(byte.wrapping_sub(b'a').wrapping_add(10)),
        _ => Err(Flaw::Says("two hexadecimal digits are wanted here")),
    }
}
