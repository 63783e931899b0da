ghost use Rattle.std.specs.Prelude.{◌≡◌, ◌≢◌, ◌++◌, ◌∷◌, ◌↔◌, List, ℕ, IsTrue, IsFalse, IfOk, IfSome, MatchOption, slice_get, length, not, ◌<◌};
ghost use Rattle.std.specs.List.{position};
ghost use Rattle.std.specs.Str.{encode_utf8_all};
ghost use Rattle.rules_tokens.specs.Tokens.{IsWord, Spells, reserved_words};
ghost use Rattle.rules_tokens.specs.Tokens as spec;
ghost use Rattle.hs_lex.specs.Fronts.{StandsAt, Begins, IsRow};

use crate::characters::continues_word;
use crate::front::Front;
use hs_base::{NoMemory, Txt};
use rules_tokens::{Tok, word as words};
use std::alloc::Global;

/// Where a word ends: at the first character that can't go on with it, if there is one.
fn word_end(rest: &[char]) -> Option<usize>
    ensures { result ≡ position (λ c. not (spec.continues_word c)) rest.now }
{
    rest.iter().position(|c| !continues_word(*c))
}

/// The text of the first `len` characters of `text`.
fn text_of<'a>(text: &'a str, chars: &[char]) -> &'a str
    requires { (after : List ℕ) × (text.now ≡ encode_utf8_all (chars.now ++ after)) }
    ensures { result.now ≡ encode_utf8_all chars.now }
{
    let mut len = 0;
    for c in chars {
        len += c.len_utf8();
    }
    &text[..len]
}

/// Whether the word may be the text, by the length and the first byte of each: most words differ from it in one of them.
fn may_be(word: &str, text: &str) -> bool
    ensures { IsFalse result → word.now ≢ text.now }
{
    word.len() == text.len() && word.as_bytes().first() == text.as_bytes().first()
}

/// The place of the text in the table.
fn place_in(table: &[&str], text: &str) -> Option<usize>
    ensures place { MatchOption result ((n : ℕ) → ¬ IsRow table.now n text.now) (λ n. IsRow table.now n text.now) }
    ensures within { IfSome result (λ n. n < length table.now) }
{
    for (number, word) in table.iter().enumerate() {
        if may_be(word, text) && *word == text {
            return Some(number);
        }
    }
    None
}

/// The number of a reserved word.
fn reserved(text: &str) -> Option<u8>
    ensures { MatchOption result ((n : ℕ) → slice_get reserved_words n ≢ Some text.now) (λ n. slice_get reserved_words n ≡ Some text.now) }
{
    match place_in(&words::TEXTS, text) {
        Some(number) => Some(number as u8),
        None => None,
    }
}

/// The token that is the word `text`, which begins with `first`.
fn word_token(alloc: Global, text: &str, chars: &[char]) -> Result<Tok, NoMemory>
    requires word { IsWord chars.now }
    requires same { text.now ≡ encode_utf8_all chars.now }
    ensures { IfOk result (Spells chars.now) }
{
    if let Some(number) = reserved(text) {
        return Ok(Tok::Word(number));
    }
    if chars[0].is_ascii_uppercase() {
        return Ok(Tok::Upper);
    }
    Ok(Tok::Name(Txt::of(alloc, text)?))
}

/// A word: it takes each character that may go on with it.
pub(crate) fn word(alloc: Global, text: &str, rest: &[char]) -> Result<Front, NoMemory>
    requires begins { Begins spec.starts_word rest.now }
    requires same { text.now ≡ encode_utf8_all rest.now }
    ensures { IfOk result (StandsAt rest.now) }
{
    let tail = &rest[1..];
    let len = 1 + word_end(tail).unwrap_or(tail.len());
    let chars = &rest[..len];
    let tok = word_token(alloc, text_of(text, chars), chars)?;
    Ok(Front::Token(len, tok))
}
