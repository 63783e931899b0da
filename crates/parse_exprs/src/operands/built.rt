ghost use Rattle.std.specs.Prelude.{◌≡◌, ◌+◌, ◌<◌, ◌≤◌, length, OnOk, [], ◌∷◌};
ghost use Rattle.rules_grammar.specs.Grammar as g;
ghost use Rattle.hs_grammar.specs.Parser as parser;
ghost use Rattle.parse_leaves.specs.Readers.{ReadsBelow};
ghost use Rattle.parse_leaves.specs.Reads.{Reads};

use crate::operands::operand::arg;
use hs_base::Expr;
use hs_base::tree::forms::EmptyForm;
use hs_items::Boxed;
use parse_leaves::{Cursor, Halt};
use rules_tokens::{symbol, word};
use std::alloc::Global;

/// An argument in a box.
fn boxed_arg<'a, F: Fn(&mut Cursor<'a>, u32) -> Result<Expr, Halt>>(
    cursor: &mut Cursor<'a>,
    alloc: Global,
    depth: u32,
    inner: &F,
) -> Result<Boxed<Expr>, Halt>
    requires { ReadsBelow F.Fn inner.now g.expr depth }
    ensures reads { Reads (parser.read (parser.enter depth) g.arg cursor.old) result cursor.new }
    ensures shorter { OnOk result (length cursor.new < length cursor.old) }
{
    let value = arg(cursor, alloc, depth, inner)?;
    Ok(Boxed::new(alloc, value)?)
}

pub fn two_args<'a, F: Fn(&mut Cursor<'a>, u32) -> Result<Expr, Halt>>(
    cursor: &mut Cursor<'a>,
    alloc: Global,
    depth: u32,
    inner: &F,
) -> Result<(Expr, Expr), Halt>
    requires { ReadsBelow F.Fn inner.now g.expr depth }
    ensures reads { Reads (parser.read (parser.enter depth) g.two_args cursor.old) result cursor.new }
    ensures shorter { OnOk result (length cursor.new < length cursor.old) }
{
    let first = arg(cursor, alloc, depth, inner)?;
    let second = arg(cursor, alloc, depth, inner)?;
    Ok((first, second))
}

/// Two arguments, each in a box.
fn boxed_args<'a, F: Fn(&mut Cursor<'a>, u32) -> Result<Expr, Halt>>(
    cursor: &mut Cursor<'a>,
    alloc: Global,
    depth: u32,
    inner: &F,
) -> Result<(Boxed<Expr>, Boxed<Expr>), Halt>
    requires { ReadsBelow F.Fn inner.now g.expr depth }
    ensures reads { Reads (parser.read (parser.enter depth) g.two_args cursor.old) result cursor.new }
    ensures shorter { OnOk result (length cursor.new < length cursor.old) }
{
    let first = boxed_arg(cursor, alloc, depth, inner)?;
    let second = boxed_arg(cursor, alloc, depth, inner)?;
    Ok((first, second))
}

pub fn unary<'a, F: Fn(&mut Cursor<'a>, u32) -> Result<Expr, Halt>>(
    cursor: &mut Cursor<'a>,
    alloc: Global,
    depth: u32,
    inner: &F,
) -> Result<Expr, Halt>
    requires { ReadsBelow F.Fn inner.now g.expr depth }
    ensures reads { Reads (parser.read (parser.enter depth) g.unary_expr cursor.old) result cursor.new }
    ensures shorter { OnOk result (length cursor.new < length cursor.old) }
{
    let word = cursor.unary_word(depth)?;
    let arg = boxed_arg(cursor, alloc, depth, inner)?;
    Ok(Expr::Unary(word.0, word.1, arg))
}

pub fn side<'a, F: Fn(&mut Cursor<'a>, u32) -> Result<Expr, Halt>>(
    cursor: &mut Cursor<'a>,
    alloc: Global,
    depth: u32,
    inner: &F,
) -> Result<Expr, Halt>
    requires { ReadsBelow F.Fn inner.now g.expr depth }
    ensures reads { Reads (parser.read (parser.enter depth) g.side_expr cursor.old) result cursor.new }
    ensures shorter { OnOk result (length cursor.new < length cursor.old) }
{
    let types = cursor.side_types(alloc, depth)?;
    let arg = boxed_arg(cursor, alloc, depth, inner)?;
    Ok(Expr::Side(types.0, types.1, types.2, types.3, arg))
}

pub fn nothing(cursor: &mut Cursor, alloc: Global, depth: u32) -> Result<Expr, Halt>
    ensures reads { Reads (parser.read (parser.enter depth) g.nothing_form cursor.old) result cursor.new }
    ensures shorter { OnOk result (length cursor.new < length cursor.old) }
{
    let pos = cursor.word(word::NOTHING)?;
    cursor.symbol(symbol::AT)?;
    let ty = cursor.atype(alloc, depth)?;
    Ok(Expr::Empty(EmptyForm::Nothing, pos, ty))
}

pub fn div<'a, F: Fn(&mut Cursor<'a>, u32) -> Result<Expr, Halt>>(
    cursor: &mut Cursor<'a>,
    alloc: Global,
    depth: u32,
    inner: &F,
) -> Result<Expr, Halt>
    requires { ReadsBelow F.Fn inner.now g.expr depth }
    ensures reads { Reads (parser.read (parser.enter depth) g.div_form cursor.old) result cursor.new }
    ensures shorter { OnOk result (length cursor.new < length cursor.old) }
{
    let pos = cursor.word(word::DIV)?;
    let args = boxed_args(cursor, alloc, depth, inner)?;
    Ok(Expr::Div(pos, args.0, args.1))
}

pub fn modulus<'a, F: Fn(&mut Cursor<'a>, u32) -> Result<Expr, Halt>>(
    cursor: &mut Cursor<'a>,
    alloc: Global,
    depth: u32,
    inner: &F,
) -> Result<Expr, Halt>
    requires { ReadsBelow F.Fn inner.now g.expr depth }
    ensures reads { Reads (parser.read (parser.enter depth) g.mod_form cursor.old) result cursor.new }
    ensures shorter { OnOk result (length cursor.new < length cursor.old) }
{
    let pos = cursor.word(word::MOD)?;
    let args = boxed_args(cursor, alloc, depth, inner)?;
    Ok(Expr::Mod(pos, args.0, args.1))
}
