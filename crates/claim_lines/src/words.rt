ghost use Rattle.std.specs.Prelude.{◌≡◌, IfOk, IsTrue};
ghost use Rattle.std.specs.Char.{is_ascii_lowercase};
ghost use Rattle.std.specs.List.{list_all};
ghost use Rattle.claim_lines.specs.Fronts.{BeginsWord, IsFirstWord};

use crate::characters::{front, letters_len, past};
use crate::literal::literal;
use hs_base::{NoMemory, Txt};
use std::alloc::Global;

/// A word of a claim.
#[derive(Drop)]
pub(crate) enum Word {
    Letters(Txt),
    /// What a text literal stands for.
    Text(Txt),
    /// What no claim goes on with.
    Wrong,
}

/// The letters as a text.
fn text_of(alloc: Global, letters: &[char]) -> Result<Txt, NoMemory>
    requires { IsTrue (list_all is_ascii_lowercase letters.now) }
    ensures { IfOk result (λ t. t ≡ letters.now) }
{
    let mut text = String::new(alloc);
    for c in letters {
        text.push(*c)?;
    }
    Txt::from_string(text)
}

/// The word that a text begins with, and how many characters it takes.
pub(crate) fn first_word(alloc: Global, text: &[char]) -> Result<(usize, Word), NoMemory>
    requires { BeginsWord text.now }
    ensures { IfOk result (λ r. IsFirstWord text.now r.0 r.1) }
{
    let len = letters_len(text);
    if len > 0 {
        let letters = text_of(alloc, front(text, len))?;
        return Ok((len, Word::Letters(letters)));
    }
    if text[0] != '"' {
        return Ok((1, Word::Wrong));
    }
    match literal(alloc, past(text, 1))? {
        Some((meant, len)) => Ok((len + 1, Word::Text(meant))),
        None => Ok((1, Word::Wrong)),
    }
}
