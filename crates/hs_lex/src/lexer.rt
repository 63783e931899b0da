ghost use Rattle.std.specs.Prelude.{◌≡◌, ◌<◌, ◌^◌, ◌-◌, List, ℕ, length, IfOk, Result, Err, Some};
ghost use Rattle.std.specs.Str.{IsValidUpTo, chars};
ghost use Rattle.rules_tokens.specs.Tokens.{Outcome, Faulty, LexesTo, IsTextOf, IsNoText, position_after};
ghost use Rattle.hs_lex.specs.Answers.{said, IsRight, IsComplete, AreRising, AreSlices};
ghost use Rattle.hs_lex.specs.Fronts.{fault_of};

use crate::fault::LexFault;
use crate::front::{Flaw, Front, read_front};
use crate::place::Place;
use hs_base::{NoMemory, Pos, Txt};
use hs_items::Items;
use rules_tokens::{Tok, Token, Tokens};
use std::alloc::Global;

/// At most one outcome is right of some bytes: one list of tokens, or one fault at one place.
pub fn one_outcome()
    ensures { (bytes : List ℕ) (a b : Outcome) → LexesTo bytes a → LexesTo bytes b → a ≡ b }
{}

/// The tokens of a script, or its first fault.
pub fn lex(alloc: Global, bytes: &[u8]) -> Result<Tokens, LexFault>
    requires { length bytes.now < 2 ^ 32 - 1 }
    ensures right { IsRight bytes.now result }
    ensures complete { IsComplete bytes.now result }
    ensures spans { IfOk result (λ tokens. AreRising 0 tokens.list) }
    ensures slices { IfOk result (λ tokens. AreSlices bytes.now tokens.list) }
{
    match std::str::from_utf8(bytes) {
        Ok(text) => {
            let chars = characters(alloc, text)?;
            text_tokens(alloc, text, chars.as_slice())
        }
        Err(fault) => Err(LexFault::NotUtf8(broken_at(alloc, bytes, fault.valid_up_to())?)),
    }
}

/// The characters of a text.
fn characters(alloc: Global, text: &str) -> Result<Vec<char>, NoMemory>
    ensures { IfOk result (λ v. v.items ≡ chars text.now) }
{
    Ok(text.chars().collect(alloc)?)
}

/// The position behind the last character of a text.
fn end_of(alloc: Global, text: &str) -> Result<Pos, NoMemory>
    requires { length text.now < 2 ^ 32 - 1 }
    ensures { IfOk result (λ pos. (cs : List ℕ) × IsTextOf text.now cs × (pos ≡ position_after cs)) }
{
    let chars = characters(alloc, text)?;
    let all = chars.as_slice();
    let end = Place::start(all).past(all, all.len());
    Ok(end.pos)
}

/// The position of the first byte that is no part of a character.
fn broken_at(alloc: Global, bytes: &[u8], valid: usize) -> Result<Pos, NoMemory>
    requires small { length bytes.now < 2 ^ 32 - 1 }
    requires valid { IsValidUpTo bytes.now valid }
    ensures { IfOk result (IsNoText bytes.now) }
{
    match std::str::from_utf8(&bytes[..valid]) {
        Ok(text) => end_of(alloc, text),
        Err(_) => unreachable!(),
    }
}

/// The fault that a flaw at this position is.
fn fault_at(flaw: Flaw, pos: Pos) -> LexFault
    ensures { (let answer : Result Tokens LexFault = Err result in said answer) ≡ Some (Faulty (fault_of flaw) pos) }
{
    match flaw {
        Flaw::BadChar => LexFault::BadChar(pos),
        Flaw::OpenText => LexFault::OpenText(pos),
        Flaw::BigNumber => LexFault::BigNumber(pos),
    }
}

/// The tokens of a text with these characters.
fn text_tokens(alloc: Global, text: &str, chars: &[char]) -> Result<Tokens, LexFault>
    requires small { length text.now < 2 ^ 32 - 1 }
    requires same { IsTextOf text.now chars.now }
    ensures { IsRight text.now result }
{
    let mut list = Items::new(alloc);
    let mut place = Place::start(chars);
    'pieces: while place.at < chars.len() {
        match read_front(alloc, &text[place.byte as usize..], &chars[place.at..])? {
            Front::Gap(len) => place = place.past(chars, len),
            Front::Token(len, tok) => {
                let end = place.past(chars, len);
                list.add(token(tok, place, end))?;
                place = end;
            }
            Front::Wrong(flaw, len) => return Err(fault_at(flaw, place.past(chars, len).pos)),
        }
    }
    let source = Txt::of(alloc, text)?;
    Ok(Tokens {
        list,
        source,
        end: place.pos,
    })
}

/// The token that stands from one place up to another.
fn token(tok: Tok, from: Place, to: Place) -> Token
    ensures { result ≡ record { tok = tok; start = from.byte; end = to.byte; pos = from.pos } }
{
    Token {
        tok,
        start: from.byte,
        end: to.byte,
        pos: from.pos,
    }
}
