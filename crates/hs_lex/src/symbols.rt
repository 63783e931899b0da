ghost use Rattle.std.specs.Prelude.{List, ℕ, ◌<◌, ◌++◌, ◌≢◌, IsFalse, MatchOption, IfSome, length};
ghost use Rattle.rules_tokens.specs.Tokens.{BeginsComment};
ghost use Rattle.hs_lex.specs.Fronts.{StandsAt, BeginsOther, IsCut, IsRow, NoneOf};

use crate::front::{Flaw, Front};
use rules_tokens::{Tok, symbol as symbols};

/// Whether the text may begin with the symbol, by the first character of each: most symbols differ in theirs.
fn may_begin(symbol: &[char], rest: &[char]) -> bool
    ensures { IsFalse result → (after : List ℕ) → symbol.now ++ after ≢ rest.now }
{
    match (symbol.first(), rest.first()) {
        (Some(a), Some(b)) => *a == *b,
        _ => true,
    }
}

/// The first text of the table that begins `rest`: its place, and how many characters it has.
fn first_in(table: &[&[char]], rest: &[char]) -> Option<(usize, usize)>
    ensures place { MatchOption result (NoneOf (length table.now) table.now rest.now)
        (λ found. (cs after : List ℕ) × IsCut rest.now found.1 cs after × IsRow table.now found.0 cs × NoneOf found.0 table.now rest.now) }
    ensures within { IfSome result (λ found. found.0 < length table.now) }
{
    for (number, symbol) in table.iter().enumerate() {
        if may_begin(symbol, rest) && rest.starts_with(symbol) {
            return Some((number, symbol.len()));
        }
    }
    None
}

/// A symbol. A longer one stands in the table before each that begins it, so the first that fits is the longest.
pub(crate) fn symbol(rest: &[char]) -> Front
    requires begins { BeginsOther rest.now }
    requires code { ¬ BeginsComment rest.now }
    ensures { StandsAt rest.now result }
{
    match first_in(&symbols::TEXTS, rest) {
        Some((number, len)) => Front::Token(len, Tok::Sym(number as u8)),
        None => Front::Wrong(Flaw::BadChar, 0),
    }
}
