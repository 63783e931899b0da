ghost use Rattle.std.specs.Prelude.{◌≡◌, ◌<◌, length, IfOk};
ghost use Rattle.std.specs.Str.{encode_utf8_all};
ghost use Rattle.hs_lex.specs.Fronts.{StandsAt};

use crate::characters::{is_blank, starts_word};
use crate::gaps::{begins_comment, blank, comment};
use crate::literal::literal;
use crate::number::number;
use crate::symbols::symbol;
use crate::words::word;
use hs_base::NoMemory;
use rules_tokens::Tok;
use std::alloc::Global;

/// What is wrong at a place where no piece can be read.
#[derive(Clone, Copy)]
pub(crate) enum Flaw {
    BadChar,
    OpenText,
    BigNumber,
}

/// What stands at the front of the characters that are left.
#[derive(Drop)]
pub(crate) enum Front {
    /// A blank or a comment of so many characters.
    Gap(usize),
    /// A token of so many characters.
    Token(usize, Tok),
    /// Neither: the flaw lies behind so many characters.
    Wrong(Flaw, usize),
}

/// Reads the front of `rest`, whose text is `text`.
pub(crate) fn read_front(alloc: Global, text: &str, rest: &[char]) -> Result<Front, NoMemory>
    requires left { 0 < length rest.now }
    requires same { text.now ≡ encode_utf8_all rest.now }
    ensures { IfOk result (StandsAt rest.now) }
{
    let first = rest[0];
    if is_blank(first) {
        return Ok(blank(rest));
    }
    if begins_comment(rest) {
        return Ok(comment(rest));
    }
    if first == '"' {
        return literal(alloc, rest);
    }
    if first.is_ascii_digit() {
        return Ok(number(rest));
    }
    if starts_word(first) {
        return word(alloc, text, rest);
    }
    Ok(symbol(rest))
}
