ghost use Rattle.std.specs.Prelude.{◌+◌, ◌<◌, length, OnOk};
ghost use Rattle.rules_grammar.specs.Grammar as g;
ghost use Rattle.hs_grammar.specs.Parser as parser;
ghost use Rattle.parse_leaves.specs.Readers.{ReadsBelow};
ghost use Rattle.parse_leaves.specs.Reads.{Reads};

use crate::case_arms::arm::{
    bare_arm, branch, cons_arm, empty_arm, named_arm, next_cons_arm, next_named_arm,
};
use crate::case_arms::branch::Branch;
use crate::{Cursor, Halt};
use rules_tokens::{symbol, word};
use std::alloc::Global;

/// The arms of a `case`, without the braces around them.
pub fn arms<'a, B: Branch, F: Fn(&mut Cursor<'a>, u32) -> Result<B, Halt>>(
    cursor: &mut Cursor<'a>,
    alloc: Global,
    depth: u32,
    inner: &F,
) -> Result<B::Arms, Halt>
    requires { ReadsBelow F.Fn inner.now B.rule (depth + 1) }
    ensures reads { Reads (parser.read (parser.enter depth) (g.arms B.of_maybe B.of_either B.of_list B.of_pair B.rule) cursor.old) result cursor.new }
    ensures shorter { OnOk result (length cursor.new < length cursor.old) }
{
    if cursor.at_word(word::NOTHING) {
        return maybe_arms(cursor, alloc, depth, inner);
    }
    if cursor.at_word(word::LEFT) {
        return either_arms(cursor, alloc, depth, inner);
    }
    if cursor.at_symbol(symbol::OPEN_BRACKET) {
        return list_arms(cursor, alloc, depth, inner);
    }
    pair_arm(cursor, alloc, depth, inner)
}

fn maybe_arms<'a, B: Branch, F: Fn(&mut Cursor<'a>, u32) -> Result<B, Halt>>(
    cursor: &mut Cursor<'a>,
    alloc: Global,
    depth: u32,
    inner: &F,
) -> Result<B::Arms, Halt>
    requires { ReadsBelow F.Fn inner.now B.rule (depth + 1) }
    ensures reads { Reads (parser.read (parser.enter depth) (g.maybe_arms B.of_maybe B.rule) cursor.old) result cursor.new }
    ensures shorter { OnOk result (length cursor.new < length cursor.old) }
{
    let nothing = bare_arm(cursor, depth, inner, word::NOTHING)?;
    let just = next_named_arm(cursor, alloc, depth, inner, word::JUST)?;
    Ok(B::maybe(nothing, just.0, just.1))
}

fn either_arms<'a, B: Branch, F: Fn(&mut Cursor<'a>, u32) -> Result<B, Halt>>(
    cursor: &mut Cursor<'a>,
    alloc: Global,
    depth: u32,
    inner: &F,
) -> Result<B::Arms, Halt>
    requires { ReadsBelow F.Fn inner.now B.rule (depth + 1) }
    ensures reads { Reads (parser.read (parser.enter depth) (g.either_arms B.of_either B.rule) cursor.old) result cursor.new }
    ensures shorter { OnOk result (length cursor.new < length cursor.old) }
{
    let left = named_arm(cursor, alloc, depth, inner, word::LEFT)?;
    let right = next_named_arm(cursor, alloc, depth, inner, word::RIGHT)?;
    Ok(B::either(left.0, left.1, right.0, right.1))
}

fn list_arms<'a, B: Branch, F: Fn(&mut Cursor<'a>, u32) -> Result<B, Halt>>(
    cursor: &mut Cursor<'a>,
    alloc: Global,
    depth: u32,
    inner: &F,
) -> Result<B::Arms, Halt>
    requires { ReadsBelow F.Fn inner.now B.rule (depth + 1) }
    ensures reads { Reads (parser.read (parser.enter depth) (g.list_arms B.of_list B.rule) cursor.old) result cursor.new }
    ensures shorter { OnOk result (length cursor.new < length cursor.old) }
{
    let empty = empty_arm(cursor, depth, inner)?;
    let items = next_cons_arm(cursor, alloc, depth, inner)?;
    Ok(B::list(empty, items.0, items.1, items.2))
}

fn pair_arm<'a, B: Branch, F: Fn(&mut Cursor<'a>, u32) -> Result<B, Halt>>(
    cursor: &mut Cursor<'a>,
    alloc: Global,
    depth: u32,
    inner: &F,
) -> Result<B::Arms, Halt>
    requires { ReadsBelow F.Fn inner.now B.rule (depth + 1) }
    ensures reads { Reads (parser.read (parser.enter depth) (g.pair_arm B.of_pair B.rule) cursor.old) result cursor.new }
    ensures shorter { OnOk result (length cursor.new < length cursor.old) }
{
    let names = cursor.name_pair(alloc, depth)?;
    cursor.symbol(symbol::ARROW)?;
    let arm = branch(cursor, depth, inner)?;
    Ok(B::pair(names.0, names.1, arm))
}
