ghost use Rattle.std.specs.Prelude.{◌≡◌, ◌+◌, ◌<◌, ◌≤◌, length, OnOk, [], ◌∷◌};
ghost use Rattle.rules_grammar.specs.Grammar as g;
ghost use Rattle.hs_grammar.specs.Parser as parser;
ghost use Rattle.parse_leaves.specs.Readers.{ReadsBelow};
ghost use Rattle.parse_leaves.specs.Reads.{Reads};

use crate::operands::bracketed::{brackets, list, parens};
use crate::operands::built::{div, modulus, nothing, side, unary};
use hs_base::Expr;
use hs_items::Items;
use parse_leaves::{Cursor, Halt};
use rules_tokens::{symbol, word};
use std::alloc::Global;

fn plain_atom<'a, F: Fn(&mut Cursor<'a>, u32) -> Result<Expr, Halt>>(
    cursor: &mut Cursor<'a>,
    alloc: Global,
    depth: u32,
    inner: &F,
) -> Result<Expr, Halt>
    requires { ReadsBelow F.Fn inner.now g.expr depth }
    ensures reads { Reads (parser.read (parser.enter depth) g.plain_atom cursor.old) result cursor.new }
    ensures shorter { OnOk result (length cursor.new < length cursor.old) }
{
    if cursor.at_int() {
        return cursor.int();
    }
    if cursor.at_text() {
        return cursor.text(alloc);
    }
    if cursor.at_constant() {
        return cursor.constant(depth);
    }
    parens(cursor, alloc, depth, inner)
}

fn atom<'a, F: Fn(&mut Cursor<'a>, u32) -> Result<Expr, Halt>>(
    cursor: &mut Cursor<'a>,
    alloc: Global,
    depth: u32,
    inner: &F,
) -> Result<Expr, Halt>
    requires { ReadsBelow F.Fn inner.now g.expr depth }
    ensures reads { Reads (parser.read (parser.enter depth) g.atom cursor.old) result cursor.new }
    ensures shorter { OnOk result (length cursor.new < length cursor.old) }
{
    if cursor.at_symbol(symbol::OPEN_BRACKET) {
        return list(cursor, alloc, depth, inner);
    }
    plain_atom(cursor, alloc, depth, inner)
}

pub fn arg<'a, F: Fn(&mut Cursor<'a>, u32) -> Result<Expr, Halt>>(
    cursor: &mut Cursor<'a>,
    alloc: Global,
    depth: u32,
    inner: &F,
) -> Result<Expr, Halt>
    requires { ReadsBelow F.Fn inner.now g.expr depth }
    ensures reads { Reads (parser.read (parser.enter depth) g.arg cursor.old) result cursor.new }
    ensures shorter { OnOk result (length cursor.new < length cursor.old) }
{
    if cursor.at_name() {
        let name = cursor.name(alloc)?;
        return Ok(Expr::Call(name, Items::new(alloc)));
    }
    atom(cursor, alloc, depth, inner)
}

pub fn args<'a, F: Fn(&mut Cursor<'a>, u32) -> Result<Expr, Halt>>(
    cursor: &mut Cursor<'a>,
    alloc: Global,
    depth: u32,
    inner: &F,
) -> Result<Items<Expr>, Halt>
    requires { ReadsBelow F.Fn inner.now g.expr depth }
    ensures reads { Reads (parser.read (parser.enter depth) (g.many g.arg) cursor.old) result cursor.new }
    ensures shorter { OnOk result (length cursor.new ≤ length cursor.old) }
{
    let mut items = Items::new(alloc);
    'items: while cursor.at_arg() {
        items.add(arg(cursor, alloc, depth, inner)?)?;
    }
    Ok(items)
}

fn call<'a, F: Fn(&mut Cursor<'a>, u32) -> Result<Expr, Halt>>(
    cursor: &mut Cursor<'a>,
    alloc: Global,
    depth: u32,
    inner: &F,
) -> Result<Expr, Halt>
    requires { ReadsBelow F.Fn inner.now g.expr depth }
    ensures reads { Reads (parser.read (parser.enter depth) g.call cursor.old) result cursor.new }
    ensures shorter { OnOk result (length cursor.new < length cursor.old) }
{
    let name = cursor.name(alloc)?;
    let args = args(cursor, alloc, depth, inner)?;
    Ok(Expr::Call(name, args))
}

pub fn app<'a, F: Fn(&mut Cursor<'a>, u32) -> Result<Expr, Halt>>(
    cursor: &mut Cursor<'a>,
    alloc: Global,
    depth: u32,
    inner: &F,
) -> Result<Expr, Halt>
    requires { ReadsBelow F.Fn inner.now g.expr depth }
    ensures reads { Reads (parser.read (parser.enter depth) g.app cursor.old) result cursor.new }
    ensures shorter { OnOk result (length cursor.new < length cursor.old) }
{
    if cursor.at_name() {
        return call(cursor, alloc, depth, inner);
    }
    if cursor.at_unary_expr() {
        return unary(cursor, alloc, depth, inner);
    }
    if cursor.at_side_expr() {
        return side(cursor, alloc, depth, inner);
    }
    if cursor.at_symbol(symbol::OPEN_BRACKET) {
        return brackets(cursor, alloc, depth, inner);
    }
    if cursor.at_word(word::NOTHING) {
        return nothing(cursor, alloc, depth);
    }
    if cursor.at_word(word::DIV) {
        return div(cursor, alloc, depth, inner);
    }
    if cursor.at_word(word::MOD) {
        return modulus(cursor, alloc, depth, inner);
    }
    plain_atom(cursor, alloc, depth, inner)
}
