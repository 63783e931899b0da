ghost use Rattle.std.specs.Prelude.{◌+◌, ◌<◌, length, OnOk};
ghost use Rattle.rules_grammar.specs.Grammar as g;
ghost use Rattle.rules_grammar.specs.GrammarParts.{TokenKind};
ghost use Rattle.hs_grammar.specs.Parser as parser;
ghost use Rattle.parse_leaves.specs.Readers.{ReadsBelow};
ghost use Rattle.parse_leaves.specs.Reads.{Reads};
ghost use Rattle.parse_leaves.specs.case_arms.Arms.{next_arm};

use crate::case_arms::branch::Branch;
use crate::{Cursor, Halt};
use hs_base::Name;
use rules_tokens::symbol;
use std::alloc::Global;

/// A branch that stands behind an arrow.
pub fn branch<'a, B: Branch, F: Fn(&mut Cursor<'a>, u32) -> Result<B, Halt>>(
    cursor: &mut Cursor<'a>,
    depth: u32,
    inner: &F,
) -> Result<B, Halt>
    requires { ReadsBelow F.Fn inner.now B.rule (depth + 1) }
    ensures reads { Reads (parser.read (parser.enter depth) B.rule cursor.old) result cursor.new }
    ensures shorter { OnOk result (length cursor.new < length cursor.old) }
{
    inner(cursor, depth)
}

pub fn bare_arm<'a, B: Branch, F: Fn(&mut Cursor<'a>, u32) -> Result<B, Halt>>(
    cursor: &mut Cursor<'a>,
    depth: u32,
    inner: &F,
    word: u8,
) -> Result<B, Halt>
    requires { ReadsBelow F.Fn inner.now B.rule (depth + 1) }
    ensures reads { Reads (parser.read (parser.enter depth) (g.bare_arm (TokenKind.word word) B.rule) cursor.old) result cursor.new }
    ensures shorter { OnOk result (length cursor.new < length cursor.old) }
{
    cursor.word(word)?;
    cursor.symbol(symbol::ARROW)?;
    branch(cursor, depth, inner)
}

pub fn named_arm<'a, B: Branch, F: Fn(&mut Cursor<'a>, u32) -> Result<B, Halt>>(
    cursor: &mut Cursor<'a>,
    alloc: Global,
    depth: u32,
    inner: &F,
    word: u8,
) -> Result<(Name, B), Halt>
    requires { ReadsBelow F.Fn inner.now B.rule (depth + 1) }
    ensures reads { Reads (parser.read (parser.enter depth) (g.named_arm (TokenKind.word word) B.rule) cursor.old) result cursor.new }
    ensures shorter { OnOk result (length cursor.new < length cursor.old) }
{
    cursor.word(word)?;
    let name = cursor.name(alloc)?;
    cursor.symbol(symbol::ARROW)?;
    let value = branch(cursor, depth, inner)?;
    Ok((name, value))
}

pub fn empty_arm<'a, B: Branch, F: Fn(&mut Cursor<'a>, u32) -> Result<B, Halt>>(
    cursor: &mut Cursor<'a>,
    depth: u32,
    inner: &F,
) -> Result<B, Halt>
    requires { ReadsBelow F.Fn inner.now B.rule (depth + 1) }
    ensures reads { Reads (parser.read (parser.enter depth) (g.empty_arm B.rule) cursor.old) result cursor.new }
    ensures shorter { OnOk result (length cursor.new < length cursor.old) }
{
    cursor.empty_brackets(depth)?;
    cursor.symbol(symbol::ARROW)?;
    branch(cursor, depth, inner)
}

pub fn cons_arm<'a, B: Branch, F: Fn(&mut Cursor<'a>, u32) -> Result<B, Halt>>(
    cursor: &mut Cursor<'a>,
    alloc: Global,
    depth: u32,
    inner: &F,
) -> Result<(Name, Name, B), Halt>
    requires { ReadsBelow F.Fn inner.now B.rule (depth + 1) }
    ensures reads { Reads (parser.read (parser.enter depth) (g.cons_arm B.rule) cursor.old) result cursor.new }
    ensures shorter { OnOk result (length cursor.new < length cursor.old) }
{
    let first = cursor.name(alloc)?;
    cursor.symbol(symbol::COLON)?;
    let rest = cursor.name(alloc)?;
    cursor.symbol(symbol::ARROW)?;
    let value = branch(cursor, depth, inner)?;
    Ok((first, rest, value))
}

/// A `;` and an arm.
pub fn next_named_arm<'a, B: Branch, F: Fn(&mut Cursor<'a>, u32) -> Result<B, Halt>>(
    cursor: &mut Cursor<'a>,
    alloc: Global,
    depth: u32,
    inner: &F,
    word: u8,
) -> Result<(Name, B), Halt>
    requires { ReadsBelow F.Fn inner.now B.rule (depth + 1) }
    ensures reads { Reads (parser.read (parser.enter depth) (next_arm (g.named_arm (TokenKind.word word) B.rule)) cursor.old) result cursor.new }
    ensures shorter { OnOk result (length cursor.new < length cursor.old) }
{
    cursor.symbol(symbol::SEMICOLON)?;
    named_arm(cursor, alloc, depth, inner, word)
}

/// A `;` and an arm.
pub fn next_cons_arm<'a, B: Branch, F: Fn(&mut Cursor<'a>, u32) -> Result<B, Halt>>(
    cursor: &mut Cursor<'a>,
    alloc: Global,
    depth: u32,
    inner: &F,
) -> Result<(Name, Name, B), Halt>
    requires { ReadsBelow F.Fn inner.now B.rule (depth + 1) }
    ensures reads { Reads (parser.read (parser.enter depth) (next_arm (g.cons_arm B.rule)) cursor.old) result cursor.new }
    ensures shorter { OnOk result (length cursor.new < length cursor.old) }
{
    cursor.symbol(symbol::SEMICOLON)?;
    cons_arm(cursor, alloc, depth, inner)
}
