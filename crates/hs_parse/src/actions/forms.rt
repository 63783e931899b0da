ghost use Rattle.std.specs.Prelude.{◌≡◌, ◌+◌, ◌<◌, ◌≤◌, length, OnOk, [], ◌∷◌};
ghost use Rattle.rules_grammar.specs.Grammar as g;
ghost use Rattle.hs_grammar.specs.Parser as parser;
ghost use Rattle.parse_leaves.specs.Readers.{ReadsBelow};
ghost use Rattle.parse_leaves.specs.Reads.{Reads};

use crate::actions::parts::{guarded_block, named_block, nested_block, two_blocks};
use crate::actions::plain::plain_action;
use hs_base::{Action, Block};
use parse_exprs::arg;
use parse_leaves::{Cursor, Halt};
use rules_tokens::word;
use std::alloc::Global;

/// An action that begins with a reserved word, but for `if` and `case`.
pub fn word_action<'a, F: Fn(&mut Cursor<'a>, u32) -> Result<Block, Halt>>(
    cursor: &mut Cursor<'a>,
    alloc: Global,
    depth: u32,
    inner: &F,
) -> Result<Action, Halt>
    requires { ReadsBelow F.Fn inner.now g.block (depth + 1) }
    ensures reads { Reads (parser.read (parser.enter depth) g.word_action cursor.old) result cursor.new }
    ensures shorter { OnOk result (length cursor.new < length cursor.old) }
{
    if cursor.at_scoped_action() {
        return scoped(cursor, depth, inner);
    }
    if cursor.at_masking_action() {
        return masking(cursor, alloc, depth, inner);
    }
    if cursor.at_guard_action() {
        return guard(cursor, depth, inner);
    }
    if cursor.at_word(word::MODIFY_MVAR) {
        return modify_mvar(cursor, alloc, depth, inner);
    }
    if cursor.at_word(word::RESTORE) {
        return restore(cursor, alloc, depth, inner);
    }
    if cursor.at_word(word::CATCH) {
        return catch(cursor, alloc, depth, inner);
    }
    if cursor.at_word(word::BRACKET) {
        return bracket(cursor, alloc, depth, inner);
    }
    if cursor.at_word(word::TIMEOUT) {
        return timeout(cursor, alloc, depth, inner);
    }
    if cursor.at_word(word::WITH_ASYNC) {
        return with_async(cursor, alloc, depth, inner);
    }
    plain_action(cursor, alloc, depth)
}

fn scoped<'a, F: Fn(&mut Cursor<'a>, u32) -> Result<Block, Halt>>(
    cursor: &mut Cursor<'a>,
    depth: u32,
    inner: &F,
) -> Result<Action, Halt>
    requires { ReadsBelow F.Fn inner.now g.block (depth + 1) }
    ensures reads { Reads (parser.read (parser.enter depth) g.scoped_action cursor.old) result cursor.new }
    ensures shorter { OnOk result (length cursor.new < length cursor.old) }
{
    let word = cursor.scoped_action_word(depth)?;
    let block = nested_block(cursor, depth, inner)?;
    Ok(Action::Scoped(word.0, word.1, block))
}

fn masking<'a, F: Fn(&mut Cursor<'a>, u32) -> Result<Block, Halt>>(
    cursor: &mut Cursor<'a>,
    alloc: Global,
    depth: u32,
    inner: &F,
) -> Result<Action, Halt>
    requires { ReadsBelow F.Fn inner.now g.block (depth + 1) }
    ensures reads { Reads (parser.read (parser.enter depth) g.masking_action cursor.old) result cursor.new }
    ensures shorter { OnOk result (length cursor.new < length cursor.old) }
{
    let word = cursor.masking_action_word(depth)?;
    let parts = named_block(cursor, alloc, depth, inner)?;
    Ok(Action::Masking(word.0, word.1, parts.0, parts.1))
}

fn guard<'a, F: Fn(&mut Cursor<'a>, u32) -> Result<Block, Halt>>(
    cursor: &mut Cursor<'a>,
    depth: u32,
    inner: &F,
) -> Result<Action, Halt>
    requires { ReadsBelow F.Fn inner.now g.block (depth + 1) }
    ensures reads { Reads (parser.read (parser.enter depth) g.guard_action cursor.old) result cursor.new }
    ensures shorter { OnOk result (length cursor.new < length cursor.old) }
{
    let word = cursor.guard_action_word(depth)?;
    let blocks = two_blocks(cursor, depth, inner)?;
    Ok(Action::Guard(word.0, word.1, blocks.0, blocks.1))
}

fn modify_mvar<'a, F: Fn(&mut Cursor<'a>, u32) -> Result<Block, Halt>>(
    cursor: &mut Cursor<'a>,
    alloc: Global,
    depth: u32,
    inner: &F,
) -> Result<Action, Halt>
    requires { ReadsBelow F.Fn inner.now g.block (depth + 1) }
    ensures reads { Reads (parser.read (parser.enter depth) g.modify_form cursor.old) result cursor.new }
    ensures shorter { OnOk result (length cursor.new < length cursor.old) }
{
    let pos = cursor.word(word::MODIFY_MVAR)?;
    let cell = arg(cursor, alloc, depth)?;
    let parts = named_block(cursor, alloc, depth, inner)?;
    Ok(Action::ModifyMVar(pos, cell, parts.0, parts.1))
}

fn restore<'a, F: Fn(&mut Cursor<'a>, u32) -> Result<Block, Halt>>(
    cursor: &mut Cursor<'a>,
    alloc: Global,
    depth: u32,
    inner: &F,
) -> Result<Action, Halt>
    requires { ReadsBelow F.Fn inner.now g.block (depth + 1) }
    ensures reads { Reads (parser.read (parser.enter depth) g.restore_form cursor.old) result cursor.new }
    ensures shorter { OnOk result (length cursor.new < length cursor.old) }
{
    let pos = cursor.word(word::RESTORE)?;
    let parts = named_block(cursor, alloc, depth, inner)?;
    Ok(Action::Restore(pos, parts.0, parts.1))
}

fn catch<'a, F: Fn(&mut Cursor<'a>, u32) -> Result<Block, Halt>>(
    cursor: &mut Cursor<'a>,
    alloc: Global,
    depth: u32,
    inner: &F,
) -> Result<Action, Halt>
    requires { ReadsBelow F.Fn inner.now g.block (depth + 1) }
    ensures reads { Reads (parser.read (parser.enter depth) g.catch_form cursor.old) result cursor.new }
    ensures shorter { OnOk result (length cursor.new < length cursor.old) }
{
    let pos = cursor.word(word::CATCH)?;
    let parts = guarded_block(cursor, alloc, depth, inner)?;
    Ok(Action::Catch(pos, parts.0, parts.1, parts.2))
}

fn bracket<'a, F: Fn(&mut Cursor<'a>, u32) -> Result<Block, Halt>>(
    cursor: &mut Cursor<'a>,
    alloc: Global,
    depth: u32,
    inner: &F,
) -> Result<Action, Halt>
    requires { ReadsBelow F.Fn inner.now g.block (depth + 1) }
    ensures reads { Reads (parser.read (parser.enter depth) g.bracket_form cursor.old) result cursor.new }
    ensures shorter { OnOk result (length cursor.new < length cursor.old) }
{
    let pos = cursor.word(word::BRACKET)?;
    let parts = guarded_block(cursor, alloc, depth, inner)?;
    let body = nested_block(cursor, depth, inner)?;
    Ok(Action::Bracket(pos, parts.0, parts.1, parts.2, body))
}

fn timeout<'a, F: Fn(&mut Cursor<'a>, u32) -> Result<Block, Halt>>(
    cursor: &mut Cursor<'a>,
    alloc: Global,
    depth: u32,
    inner: &F,
) -> Result<Action, Halt>
    requires { ReadsBelow F.Fn inner.now g.block (depth + 1) }
    ensures reads { Reads (parser.read (parser.enter depth) g.timeout_form cursor.old) result cursor.new }
    ensures shorter { OnOk result (length cursor.new < length cursor.old) }
{
    let pos = cursor.word(word::TIMEOUT)?;
    let arg = arg(cursor, alloc, depth)?;
    let body = nested_block(cursor, depth, inner)?;
    Ok(Action::Timeout(pos, arg, body))
}

fn with_async<'a, F: Fn(&mut Cursor<'a>, u32) -> Result<Block, Halt>>(
    cursor: &mut Cursor<'a>,
    alloc: Global,
    depth: u32,
    inner: &F,
) -> Result<Action, Halt>
    requires { ReadsBelow F.Fn inner.now g.block (depth + 1) }
    ensures reads { Reads (parser.read (parser.enter depth) g.with_async_form cursor.old) result cursor.new }
    ensures shorter { OnOk result (length cursor.new < length cursor.old) }
{
    let pos = cursor.word(word::WITH_ASYNC)?;
    let parts = guarded_block(cursor, alloc, depth, inner)?;
    Ok(Action::WithAsync(pos, parts.0, parts.1, parts.2))
}
