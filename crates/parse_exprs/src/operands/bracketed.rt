ghost use Rattle.std.specs.Prelude.{◌≡◌, ◌+◌, ◌<◌, ◌≤◌, length, OnOk, [], ◌∷◌};
ghost use Rattle.rules_grammar.specs.Grammar as g;
ghost use Rattle.rules_grammar.specs.GrammarForms.{Rule};
ghost use Rattle.rules_grammar.specs.GrammarKinds as k;
ghost use Rattle.rules_grammar.specs.GrammarParts.{OpenerPart};
ghost use Rattle.hs_grammar.specs.Parser as parser;
ghost use Rattle.parse_leaves.specs.Readers.{ReadsBelow};
ghost use Rattle.parse_leaves.specs.Reads.{Reads};
ghost use Rattle.parse_exprs.specs.operands.Items.{rest_of_items};

use crate::operands::inside::nested;
use hs_base::tree::forms::EmptyForm;
use hs_base::{Expr, Pos};
use hs_items::Items;
use parse_leaves::{Cursor, Halt, trees};
use rules_tokens::symbol;
use std::alloc::Global;

pub fn parens<'a, F: Fn(&mut Cursor<'a>, u32) -> Result<Expr, Halt>>(
    cursor: &mut Cursor<'a>,
    alloc: Global,
    depth: u32,
    inner: &F,
) -> Result<Expr, Halt>
    requires { ReadsBelow F.Fn inner.now g.expr depth }
    ensures reads { Reads (parser.read (parser.enter depth) (Rule.within (λ p f. f p) k.open_paren OpenerPart.expr_in_parens) cursor.old) result cursor.new }
    ensures shorter { OnOk result (length cursor.new < length cursor.old) }
{
    let pos = cursor.open_symbol(symbol::OPEN_PAREN, depth)?;
    in_parens(cursor, alloc, depth - 1, inner, pos)
}

fn in_parens<'a, F: Fn(&mut Cursor<'a>, u32) -> Result<Expr, Halt>>(
    cursor: &mut Cursor<'a>,
    alloc: Global,
    depth: u32,
    inner: &F,
    pos: Pos,
) -> Result<Expr, Halt>
    requires { ReadsBelow F.Fn inner.now g.expr (depth + 1) }
    ensures reads { Reads (parser.read_then (parser.enter depth) (g.rule_of OpenerPart.expr_in_parens) (λ f. parser.done (f pos)) cursor.old) result cursor.new }
    ensures shorter { OnOk result (length cursor.new < length cursor.old) }
{
    if cursor.at_symbol(symbol::CLOSE_PAREN) {
        cursor.symbol(symbol::CLOSE_PAREN)?;
        return Ok(Expr::Unit(pos));
    }
    let first = nested(cursor, depth, inner)?;
    parens_end(cursor, alloc, depth, inner, pos, first)
}

fn parens_end<'a, F: Fn(&mut Cursor<'a>, u32) -> Result<Expr, Halt>>(
    cursor: &mut Cursor<'a>,
    alloc: Global,
    depth: u32,
    inner: &F,
    pos: Pos,
    first: Expr,
) -> Result<Expr, Halt>
    requires { ReadsBelow F.Fn inner.now g.expr (depth + 1) }
    ensures reads { Reads (parser.read_then (parser.enter depth) g.expr_end (λ f. parser.done (f first pos)) cursor.old) result cursor.new }
    ensures shorter { OnOk result (length cursor.new < length cursor.old) }
{
    if cursor.at_symbol(symbol::CLOSE_PAREN) {
        cursor.symbol(symbol::CLOSE_PAREN)?;
        return Ok(first);
    }
    cursor.symbol(symbol::COMMA)?;
    let second = nested(cursor, depth, inner)?;
    cursor.symbol(symbol::CLOSE_PAREN)?;
    trees::pair(alloc, pos, first, second)
}

pub fn list<'a, F: Fn(&mut Cursor<'a>, u32) -> Result<Expr, Halt>>(
    cursor: &mut Cursor<'a>,
    alloc: Global,
    depth: u32,
    inner: &F,
) -> Result<Expr, Halt>
    requires { ReadsBelow F.Fn inner.now g.expr depth }
    ensures reads { Reads (parser.read (parser.enter depth) (Rule.within Expr.List k.open_bracket OpenerPart.items_in_brackets) cursor.old) result cursor.new }
    ensures shorter { OnOk result (length cursor.new < length cursor.old) }
{
    let pos = cursor.open_symbol(symbol::OPEN_BRACKET, depth)?;
    let items = items(cursor, alloc, depth - 1, inner)?;
    Ok(Expr::List(pos, items))
}

fn items<'a, F: Fn(&mut Cursor<'a>, u32) -> Result<Expr, Halt>>(
    cursor: &mut Cursor<'a>,
    alloc: Global,
    depth: u32,
    inner: &F,
) -> Result<Items<Expr>, Halt>
    requires { ReadsBelow F.Fn inner.now g.expr (depth + 1) }
    ensures reads { Reads (parser.read (parser.enter depth) g.items cursor.old) result cursor.new }
    ensures shorter { OnOk result (length cursor.new < length cursor.old) }
{
    let first = nested(cursor, depth, inner)?;
    let rest = rest_of_items(cursor, alloc, depth, inner)?;
    trees::items(alloc, first, rest)
}

/// What stands behind the first item, up to the end.
fn rest_of_items<'a, F: Fn(&mut Cursor<'a>, u32) -> Result<Expr, Halt>>(
    cursor: &mut Cursor<'a>,
    alloc: Global,
    depth: u32,
    inner: &F,
) -> Result<Items<Expr>, Halt>
    requires { ReadsBelow F.Fn inner.now g.expr (depth + 1) }
    ensures reads { Reads (parser.read (parser.enter depth) rest_of_items cursor.old) result cursor.new }
    ensures shorter { OnOk result (length cursor.new < length cursor.old) }
{
    let rest = next_items(cursor, alloc, depth, inner)?;
    cursor.symbol(symbol::CLOSE_BRACKET)?;
    Ok(rest)
}

fn next_item<'a, F: Fn(&mut Cursor<'a>, u32) -> Result<Expr, Halt>>(
    cursor: &mut Cursor<'a>,
    depth: u32,
    inner: &F,
) -> Result<Expr, Halt>
    requires { ReadsBelow F.Fn inner.now g.expr (depth + 1) }
    ensures reads { Reads (parser.read (parser.enter depth) g.next_item cursor.old) result cursor.new }
    ensures shorter { OnOk result (length cursor.new < length cursor.old) }
{
    cursor.symbol(symbol::COMMA)?;
    nested(cursor, depth, inner)
}

fn next_items<'a, F: Fn(&mut Cursor<'a>, u32) -> Result<Expr, Halt>>(
    cursor: &mut Cursor<'a>,
    alloc: Global,
    depth: u32,
    inner: &F,
) -> Result<Items<Expr>, Halt>
    requires { ReadsBelow F.Fn inner.now g.expr (depth + 1) }
    ensures reads { Reads (parser.read (parser.enter depth) (g.many g.next_item) cursor.old) result cursor.new }
    ensures shorter { OnOk result (length cursor.new ≤ length cursor.old) }
{
    let mut items = Items::new(alloc);
    'items: while cursor.at_symbol(symbol::COMMA) {
        items.add(next_item(cursor, depth, inner)?)?;
    }
    Ok(items)
}

pub fn brackets<'a, F: Fn(&mut Cursor<'a>, u32) -> Result<Expr, Halt>>(
    cursor: &mut Cursor<'a>,
    alloc: Global,
    depth: u32,
    inner: &F,
) -> Result<Expr, Halt>
    requires { ReadsBelow F.Fn inner.now g.expr depth }
    ensures reads { Reads (parser.read (parser.enter depth) g.list_form cursor.old) result cursor.new }
    ensures shorter { OnOk result (length cursor.new < length cursor.old) }
{
    let pos = cursor.open_symbol(symbol::OPEN_BRACKET, depth)?;
    if cursor.at_symbol(symbol::CLOSE_BRACKET) {
        cursor.symbol(symbol::CLOSE_BRACKET)?;
        cursor.symbol(symbol::AT)?;
        let ty = cursor.atype(alloc, depth)?;
        return Ok(Expr::Empty(EmptyForm::EmptyList, pos, ty));
    }
    let items = items(cursor, alloc, depth - 1, inner)?;
    Ok(Expr::List(pos, items))
}
