ghost use Rattle.std.specs.Prelude.{◌≡◌, ◌≢◌, ◌<◌, ◌^◌, ◌-◌, ◌∷◌, ℕ, List, IfOk, MatchOption, length};
ghost use Rattle.claim_lines.specs.Lines.{BeginsClaim, IsNoClaim};
ghost use Rattle.claim_lines.specs.declared.words.Word.{Word as AWord};
ghost use Rattle.claim_lines.specs.Drafts.{HasRead};
ghost use Rattle.claim_lines.specs.Fronts.{IsBody, IsEnded, IsLine};

use crate::characters::{blanks_len, past, spaces_len};
use crate::claim::Says;
use crate::draft::Draft;
use crate::words::first_word;
use hs_base::NoMemory;
use std::alloc::Global;

/// What stands behind the mark of a claim.
#[derive(Drop)]
pub(crate) enum Body {
    Says(Says),
    /// It goes wrong where so many characters are left.
    WrongBefore(usize),
}

/// A line of a script.
#[derive(Drop)]
pub(crate) enum Line {
    Says(Says),
    /// It begins as a claim and goes wrong in this column.
    WrongAt(u32),
    Other,
}

/// What stands behind this character, if it is the first.
fn behind(text: &[char], first: char) -> Option<&[char]>
    ensures { MatchOption result ((more : List ℕ) → text.now ≢ first ∷ more) (λ more. text.now ≡ first ∷ more.now) }
{
    let (c, more) = text.split_first()?;
    if *c == first { Some(more) } else { None }
}

/// What stands behind the mark, if the line begins as a claim.
fn behind_mark(line: &[char]) -> Option<&[char]>
    ensures { MatchOption result (IsNoClaim line.now) (λ rest. (head : List ℕ) × BeginsClaim line.now head rest.now) }
{
    let first = behind(past(line, blanks_len(line)), '-')?;
    let second = behind(first, '-')?;
    behind(past(second, spaces_len(second)), '!')
}

/// What a claim says of which all words are read, before so many characters.
fn ended(draft: Draft, left: usize) -> Body
    ensures { (words : List AWord) → HasRead words draft → IsEnded words left result }
{
    match draft.done() {
        Some(says) => Body::Says(says),
        None => Body::WrongBefore(left),
    }
}

/// Reads what stands behind the mark, word by word.
fn read_body(alloc: Global, body: &[char]) -> Result<Body, NoMemory>
    ensures { IfOk result (IsBody body.now) }
{
    let mut draft = Draft::Begin;
    let mut behind = body;
    'words: loop {
        let rest = past(behind, blanks_len(behind));
        if rest.is_empty() {
            return Ok(ended(draft, behind.len()));
        }
        let (len, word) = first_word(alloc, rest)?;
        match draft.then(alloc, word)? {
            Some(more) => draft = more,
            None => return Ok(Body::WrongBefore(rest.len())),
        }
        behind = past(rest, len);
    }
}

/// What a line is.
pub(crate) fn read_line(alloc: Global, line: &[char]) -> Result<Line, NoMemory>
    requires { length line.now < 2 ^ 32 - 1 }
    ensures { IfOk result (IsLine line.now) }
{
    let Some(body) = behind_mark(line) else {
        return Ok(Line::Other);
    };
    match read_body(alloc, body)? {
        Body::Says(says) => Ok(Line::Says(says)),
        Body::WrongBefore(left) => Ok(Line::WrongAt((line.len() - left + 1) as u32)),
    }
}
