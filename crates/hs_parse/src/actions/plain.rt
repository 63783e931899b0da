ghost use Rattle.std.specs.Prelude.{◌≡◌, ◌+◌, ◌<◌, ◌≤◌, length, OnOk, [], ◌∷◌};
ghost use Rattle.rules_grammar.specs.Grammar as g;
ghost use Rattle.hs_grammar.specs.Parser as parser;
ghost use Rattle.parse_leaves.specs.Reads.{Reads};

use hs_base::Action;
use hs_base::tree::forms::UnaryAction;
use parse_exprs::{arg, two_args};
use parse_leaves::{Cursor, Halt};
use rules_tokens::{symbol, word};
use std::alloc::Global;

/// An action with no block.
pub fn plain_action(cursor: &mut Cursor, alloc: Global, depth: u32) -> Result<Action, Halt>
    ensures reads { Reads (parser.read (parser.enter depth) g.plain_action cursor.old) result cursor.new }
    ensures shorter { OnOk result (length cursor.new < length cursor.old) }
{
    if cursor.at_bare_action() {
        return bare(cursor, depth);
    }
    if cursor.at_unary_action() {
        return unary(cursor, alloc, depth);
    }
    if cursor.at_binary_action() {
        return binary(cursor, alloc, depth);
    }
    if cursor.at_word(word::H_PUT_STR_LN) {
        return error_line(cursor, alloc, depth);
    }
    if cursor.at_word(word::THROW_IO) {
        return throw_io(cursor, alloc, depth);
    }
    new_empty_mvar(cursor, alloc, depth)
}

fn bare(cursor: &mut Cursor, depth: u32) -> Result<Action, Halt>
    ensures reads { Reads (parser.read (parser.enter depth) g.bare_action cursor.old) result cursor.new }
    ensures shorter { OnOk result (length cursor.new < length cursor.old) }
{
    let word = cursor.bare_action_word(depth)?;
    Ok(Action::Bare(word.0, word.1))
}

fn unary(cursor: &mut Cursor, alloc: Global, depth: u32) -> Result<Action, Halt>
    ensures reads { Reads (parser.read (parser.enter depth) g.unary_action cursor.old) result cursor.new }
    ensures shorter { OnOk result (length cursor.new < length cursor.old) }
{
    let word = cursor.unary_action_word(depth)?;
    let arg = arg(cursor, alloc, depth)?;
    Ok(Action::Unary(word.0, word.1, arg))
}

fn binary(cursor: &mut Cursor, alloc: Global, depth: u32) -> Result<Action, Halt>
    ensures reads { Reads (parser.read (parser.enter depth) g.binary_action cursor.old) result cursor.new }
    ensures shorter { OnOk result (length cursor.new < length cursor.old) }
{
    let word = cursor.binary_action_word(depth)?;
    let args = two_args(cursor, alloc, depth)?;
    Ok(Action::Binary(word.0, word.1, args.0, args.1))
}

fn error_line(cursor: &mut Cursor, alloc: Global, depth: u32) -> Result<Action, Halt>
    ensures reads { Reads (parser.read (parser.enter depth) g.error_line cursor.old) result cursor.new }
    ensures shorter { OnOk result (length cursor.new < length cursor.old) }
{
    let pos = cursor.word(word::H_PUT_STR_LN)?;
    cursor.word(word::STDERR)?;
    let arg = arg(cursor, alloc, depth)?;
    Ok(Action::Unary(UnaryAction::HPutStrLn, pos, arg))
}

fn throw_io(cursor: &mut Cursor, alloc: Global, depth: u32) -> Result<Action, Halt>
    ensures reads { Reads (parser.read (parser.enter depth) g.throw_form cursor.old) result cursor.new }
    ensures shorter { OnOk result (length cursor.new < length cursor.old) }
{
    let pos = cursor.word(word::THROW_IO)?;
    cursor.symbol(symbol::AT)?;
    let ty = cursor.atype(alloc, depth)?;
    let arg = arg(cursor, alloc, depth)?;
    Ok(Action::ThrowIo(pos, ty, arg))
}

fn new_empty_mvar(cursor: &mut Cursor, alloc: Global, depth: u32) -> Result<Action, Halt>
    ensures reads { Reads (parser.read (parser.enter depth) g.new_empty_form cursor.old) result cursor.new }
    ensures shorter { OnOk result (length cursor.new < length cursor.old) }
{
    let pos = cursor.word(word::NEW_EMPTY_MVAR)?;
    cursor.symbol(symbol::AT)?;
    let ty = cursor.atype(alloc, depth)?;
    Ok(Action::NewEmptyMVar(pos, ty))
}
