//! The claims of a text, line by line.
ghost use Rattle.std.specs.Prelude.{◌≡◌, ◌<◌, ◌^◌, ◌-◌, IfOk, MatchResult, length, not};
ghost use Rattle.std.specs.List.{prefix_len};
ghost use Rattle.std.specs.Str.{chars};
ghost use Rattle.rules_tokens.specs.Tokens.{is_line_feed};
ghost use Rattle.claim_lines.specs.Reading.{HasClaims, IsFault};
ghost use Rattle.claim_lines.specs.Fronts.{AddsLine, IsLineFault};

use crate::characters::{front, past};
use crate::claim::{Claim, ClaimFault};
use crate::lines::{Line, read_line};
use hs_base::{NoMemory, Pos};
use hs_items::Items;
use std::alloc::Global;

/// All claims of a text, in the order of its lines, or the first place at which one is not written as claims are: the first word that no
/// claim goes on with, or, where more must come, directly behind the last one.
pub fn read_claims(alloc: Global, text: &str) -> Result<Items<Claim>, ClaimFault>
    requires small { length text.now < 2 ^ 32 - 1 }
    ensures { MatchResult result (HasClaims (chars text.now)) (IsFault (chars text.now)) }
{
    let all = characters(alloc, text)?;
    claims_of(alloc, all.as_slice())
}

fn characters(alloc: Global, text: &str) -> Result<Vec<char>, NoMemory>
    ensures { IfOk result (λ v. v.items ≡ chars text.now) }
{
    Ok(text.chars().collect(alloc)?)
}

/// The claims of a text with these characters.
fn claims_of(alloc: Global, text: &[char]) -> Result<Items<Claim>, ClaimFault>
    requires { length text.now < 2 ^ 32 - 1 }
    ensures { MatchResult result (HasClaims text.now) (IsFault text.now) }
{
    let mut claims = Items::new(alloc);
    let mut number = 1u32;
    let mut rest = text;
    'lines: loop {
        let len = line_len(rest);
        add_line(alloc, &mut claims, number, front(rest, len))?;
        if len == rest.len() {
            return Ok(claims);
        }
        number += 1;
        rest = past(rest, len + 1);
    }
}

/// How many characters a text has before its first line feed.
fn line_len(text: &[char]) -> usize
    ensures { result ≡ prefix_len (λ c. not (is_line_feed c)) text.now }
{
    text.iter().take_while(|c| **c != '\n').count()
}

/// Adds the claim of the line of this number, if it is one.
fn add_line(
    alloc: Global,
    claims: &mut Items<Claim>,
    number: u32,
    line: &[char],
) -> Result<(), ClaimFault>
    requires { length line.now < 2 ^ 32 - 1 }
    ensures { MatchResult result (λ u. AddsLine line.now number claims.old claims.new) (IsLineFault line.now number) }
{
    match read_line(alloc, line)? {
        Line::Says(says) => {
            claims.add(Claim { line: number, says })?;
            Ok(())
        }
        Line::WrongAt(col) => Err(ClaimFault::Refused(Pos { line: number, col })),
        Line::Other => Ok(()),
    }
}
