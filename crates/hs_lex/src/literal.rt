ghost use Rattle.std.specs.Prelude.{◌≡◌, ◌∷◌, ◌<◌, ◌==◌, List, ℕ, IfOk, MatchOption, length};
ghost use Rattle.rules_tokens.specs.Tokens.{IsOpen, LiteralPart, quote};
ghost use Rattle.hs_lex.specs.Fronts.{StandsAt, Begins, IsBody, IsClosedAt, MeansAll};

use crate::characters::escaped;
use crate::front::{Flaw, Front};
use hs_base::{NoMemory, Txt};
use rules_tokens::Tok;
use std::alloc::Global;

/// What stands between the quotes of a literal.
#[derive(Drop)]
pub(crate) enum Meaning {
    Text(Txt),
    /// A wrong escape, behind so many characters.
    Wrong(usize),
}

/// How many characters stand before the closing quote, if the literal is closed on its line.
fn body_len(inside: &[char]) -> Option<usize>
    ensures { MatchOption result (IsOpen (quote ∷ inside.now)) (IsClosedAt inside.now) }
{
    let mut at = 0;
    'parts: while at < inside.len() {
        match inside[at] {
            '"' => return Some(at),
            '\n' => return None,
            '\\' => {
                if at + 1 == inside.len() || inside[at + 1] == '\n' {
                    return None;
                }
                at += 2;
            }
            _ => at += 1,
        }
    }
    None
}

/// The text that the parts of a literal stand for.
fn read_body(alloc: Global, body: &[char]) -> Result<Meaning, NoMemory>
    requires { (ps : List LiteralPart) × IsBody ps body.now }
    ensures { IfOk result (MeansAll body.now) }
{
    let mut text = String::new(alloc);
    let mut at = 0;
    'parts: while at < body.len() {
        if body[at] == '\\' {
            match escaped(body[at + 1]) {
                Some(c) => text.push(c)?,
                None => return Ok(Meaning::Wrong(at)),
            }
            at += 2;
        } else {
            text.push(body[at])?;
            at += 1;
        }
    }
    let text = Txt::from_string(text)?;
    Ok(Meaning::Text(text))
}

/// A text literal: it goes up to its closing quote.
pub(crate) fn literal(alloc: Global, rest: &[char]) -> Result<Front, NoMemory>
    requires { Begins (λ c. c == quote) rest.now }
    ensures { IfOk result (StandsAt rest.now) }
{
    let inside = &rest[1..];
    let Some(len) = body_len(inside) else {
        return Ok(Front::Wrong(Flaw::OpenText, 0));
    };
    match read_body(alloc, &inside[..len])? {
        Meaning::Text(text) => Ok(Front::Token(len + 2, Tok::Text(text))),
        Meaning::Wrong(at) => Ok(Front::Wrong(Flaw::BadChar, at + 1)),
    }
}
