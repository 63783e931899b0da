ghost use Rattle.std.specs.Prelude.{◌≡◌, ◌∷◌, IfOk, MatchOption};
ghost use Rattle.rules_tokens.specs.Tokens.{backslash, quote};
ghost use Rattle.claim_lines.specs.Words.{BeginsNoText};
ghost use Rattle.claim_lines.specs.Fronts.{IsNext, IsText};

use crate::characters::{escaped, past};
use hs_base::{NoMemory, Txt};
use std::alloc::Global;

/// What stands next inside a text literal.
#[derive(Clone, Copy)]
pub(crate) enum Inside {
    /// The closing quote.
    Quote,
    /// So many characters that stand for this one.
    Character(char, usize),
    Neither,
}

/// What stands next where a backslash stands before these characters.
fn escape(behind: &[char]) -> Inside
    ensures { IsNext (backslash ∷ behind.now) result }
{
    let Some((first, _)) = behind.split_first() else {
        return Inside::Neither;
    };
    match escaped(*first) {
        Some(c) => Inside::Character(c, 2),
        None => Inside::Neither,
    }
}

fn next(rest: &[char]) -> Inside
    ensures { IsNext rest.now result }
{
    let Some((first, more)) = rest.split_first() else {
        return Inside::Neither;
    };
    match *first {
        '"' => Inside::Quote,
        '\\' => escape(more),
        '\n' => Inside::Neither,
        c => Inside::Character(c, 1),
    }
}

/// The text of a literal, and how many characters it takes behind its opening quote. None if it isn't closed on its line or has a wrong
/// escape.
pub(crate) fn literal(alloc: Global, inside: &[char]) -> Result<Option<(Txt, usize)>, NoMemory>
    ensures { IfOk result (λ r. MatchOption r (BeginsNoText quote inside.now) (λ p. IsText inside.now p.0 p.1)) }
{
    let mut text = String::new(alloc);
    let mut rest = inside;
    'parts: loop {
        match next(rest) {
            Inside::Quote => {
                let text = Txt::from_string(text)?;
                return Ok(Some((text, inside.len() - rest.len() + 1)));
            }
            Inside::Character(c, len) => {
                text.push(c)?;
                rest = past(rest, len);
            }
            Inside::Neither => return Ok(None),
        }
    }
}
