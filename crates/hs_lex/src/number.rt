ghost use Rattle.std.specs.Prelude.{◌≡◌, ◌<◌, ◌≤◌, IsTrue, MatchOption, pos, not};
ghost use Rattle.std.specs.List.{position, list_all};
ghost use Rattle.std.specs.Char.{is_ascii_digit};
ghost use Rattle.rules_tokens.specs.Tokens.{number_of, greatest_number};
ghost use Rattle.hs_lex.specs.Fronts.{StandsAt, Begins};

use crate::front::{Flaw, Front};
use rules_tokens::Tok;

/// Where a number ends: at the first character that is no digit, if there is one.
fn number_end(rest: &[char]) -> Option<usize>
    ensures { result ≡ position (λ c. not (is_ascii_digit c)) rest.now }
{
    rest.iter().position(|c| !c.is_ascii_digit())
}

/// The number that the digits write, unless it is too big.
fn value(digits: &[char]) -> Option<i64>
    requires { IsTrue (list_all is_ascii_digit digits.now) }
    ensures { MatchOption result (greatest_number < number_of digits.now) (λ v. (v ≡ pos (number_of digits.now)) × (number_of digits.now ≤ greatest_number)) }
{
    const GREATEST: u64 = i64::MAX as u64;
    let mut value: u64 = 0;
    for c in digits {
        let digit = *c as u64 - '0' as u64;
        if value > (GREATEST - digit) / 10 {
            return None;
        }
        value = 10 * value + digit;
    }
    Some(value as i64)
}

/// A number: it takes each digit.
pub(crate) fn number(rest: &[char]) -> Front
    requires { Begins is_ascii_digit rest.now }
    ensures { StandsAt rest.now result }
{
    let len = number_end(rest).unwrap_or(rest.len());
    match value(&rest[..len]) {
        Some(value) => Front::Token(len, Tok::Int(value)),
        None => Front::Wrong(Flaw::BigNumber, 0),
    }
}
