ghost use Rattle.std.specs.Prelude.{◌≡◌, ◌≤◌, ◌++◌, List, length, OnErr};
ghost use Rattle.rules_tokens.specs.declared.token.Token.{Token};
ghost use Rattle.hs_grammar.specs.Parser as parser;
ghost use Rattle.hs_parse.specs.Parsed.{Parsed, place};
ghost use Rattle.parse_leaves.specs.Reads.{Reads};

use crate::fault::ParseFault;
use crate::script::script;
use hs_base::{Pos, Script};
use parse_leaves::{Cursor, Halt};
use rules_tokens::Tokens;
use std::alloc::Global;

/// How many openers may nest.
const DEPTH: u32 = 200;

/// The script that the tokens spell.
///
/// `Unexpected` comes where no script is spelled by them, at the first token with which none goes on, or at the end;
/// `Deep` at the first opener that stands in 200 openers, if that comes first.
#[tactic(auto, using(crate::proofs::Top::parsed_ok, crate::proofs::Top::parsed_unexpected, crate::proofs::Top::parsed_deep))]
pub fn parse(alloc: Global, tokens: &Tokens) -> Result<Script, ParseFault>
    ensures { Parsed tokens.now result }
{
    let mut cursor = Cursor::new(tokens.list.as_slice());
    match script(&mut cursor, alloc, DEPTH) {
        Ok(script) => Ok(script),
        Err(Halt::Unexpected(left)) => Err(ParseFault::Unexpected(position(tokens, left))),
        Err(Halt::TooDeep(left)) => Err(ParseFault::Deep(position(tokens, left))),
        Err(Halt::NoMemory) => Err(ParseFault::NoMemory),
    }
}

/// Where the token stands behind which, with it, so many are left; or the end.
#[tactic(auto, using(crate::proofs::Top::place_some, crate::proofs::Top::place_none, crate::proofs::Top::place_beyond))]
fn position(tokens: &Tokens, left: usize) -> Pos
    ensures { (read b : List Token) → read ++ b ≡ tokens.now.list → left ≡ length b → result ≡ place b tokens.now.end }
{
    let count = tokens.list.len();
    if left > count {
        return tokens.end;
    }
    match tokens.list.get(count - left) {
        Some(token) => token.pos,
        None => tokens.end,
    }
}
