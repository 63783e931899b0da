ghost use Rattle.std.specs.Prelude.{◌≡◌, ◌+◌, ◌<◌, length, OnOk, [], ◌∷◌};
ghost use Rattle.rules_grammar.specs.Grammar as g;
ghost use Rattle.hs_grammar.specs.Parser as parser;
ghost use Rattle.parse_leaves.specs.Readers.{ReadsBelow};
ghost use Rattle.parse_leaves.specs.Reads.{Reads};
ghost use Rattle.parse_leaves.proofs.Steps.{item-product_link, item-sum_link, item-cons_link, item-and_link, item-or_link};
ghost use Rattle.parse_exprs.specs.Exprs.{compared};

use crate::links::{Links, all_links};
use crate::operands::app;
use hs_base::tree::forms::UnaryForm;
use hs_base::{CompareOp, Expr, Link, ListLink, Pos, SumLink};
use hs_items::Boxed;
use parse_leaves::{Cursor, Halt, trees};
use rules_tokens::symbol;
use std::alloc::Global;

/// The links of a product.
struct Products;

impl Links for Products {
    type Link = Link;

    ghost rule = { g.product_link };

    fn begins(cursor: &Cursor) -> bool {
        cursor.at_symbol(symbol::STAR)
    }

    fn link<F: Fn(&mut Cursor, u32) -> Result<Expr, Halt>>(
        cursor: &mut Cursor,
        alloc: Global,
        depth: u32,
        inner: &F,
    ) -> Result<Link, Halt> {
        let pos = cursor.symbol(symbol::STAR)?;
        let operand = app(cursor, alloc, depth, inner)?;
        Ok(Link { pos, operand })
    }

    ghost repeats = { item-product_link };
}

fn product<F: Fn(&mut Cursor, u32) -> Result<Expr, Halt>>(
    cursor: &mut Cursor,
    alloc: Global,
    depth: u32,
    inner: &F,
) -> Result<Expr, Halt>
    requires { ReadsBelow F.Fn inner.now g.expr depth }
    ensures reads { Reads (parser.read (parser.enter depth) g.product cursor.old) result cursor.new }
    ensures shorter { OnOk result (length cursor.new < length cursor.old) }
{
    let first = app(cursor, alloc, depth, inner)?;
    let links = all_links::<Products, F>(cursor, alloc, depth, inner)?;
    trees::product(alloc, first, links)
}

fn first_term<F: Fn(&mut Cursor, u32) -> Result<Expr, Halt>>(
    cursor: &mut Cursor,
    alloc: Global,
    depth: u32,
    inner: &F,
) -> Result<Expr, Halt>
    requires { ReadsBelow F.Fn inner.now g.expr depth }
    ensures reads { Reads (parser.read (parser.enter depth) g.first_term cursor.old) result cursor.new }
    ensures shorter { OnOk result (length cursor.new < length cursor.old) }
{
    if cursor.at_symbol(symbol::MINUS) {
        let pos = cursor.symbol(symbol::MINUS)?;
        let operand = product(cursor, alloc, depth, inner)?;
        let operand = Boxed::new(alloc, operand)?;
        return Ok(Expr::Unary(UnaryForm::Negate, pos, operand));
    }
    product(cursor, alloc, depth, inner)
}

/// The links of a sum.
struct Sums;

impl Links for Sums {
    type Link = SumLink;

    ghost rule = { g.sum_link };

    fn begins(cursor: &Cursor) -> bool {
        cursor.at_sum_operator()
    }

    fn link<F: Fn(&mut Cursor, u32) -> Result<Expr, Halt>>(
        cursor: &mut Cursor,
        alloc: Global,
        depth: u32,
        inner: &F,
    ) -> Result<SumLink, Halt> {
        let operator = cursor.sum_operator(depth)?;
        let term = product(cursor, alloc, depth, inner)?;
        Ok(SumLink {
            op: operator.0,
            pos: operator.1,
            operand: term,
        })
    }

    ghost repeats = { item-sum_link };
}

fn sum<F: Fn(&mut Cursor, u32) -> Result<Expr, Halt>>(
    cursor: &mut Cursor,
    alloc: Global,
    depth: u32,
    inner: &F,
) -> Result<Expr, Halt>
    requires { ReadsBelow F.Fn inner.now g.expr depth }
    ensures reads { Reads (parser.read (parser.enter depth) g.sum cursor.old) result cursor.new }
    ensures shorter { OnOk result (length cursor.new < length cursor.old) }
{
    let first = first_term(cursor, alloc, depth, inner)?;
    let links = all_links::<Sums, F>(cursor, alloc, depth, inner)?;
    trees::sum(alloc, first, links)
}

/// The links of a list, by `:` and `++`.
struct Conses;

impl Links for Conses {
    type Link = ListLink;

    ghost rule = { g.cons_link };

    fn begins(cursor: &Cursor) -> bool {
        cursor.at_cons_operator()
    }

    fn link<F: Fn(&mut Cursor, u32) -> Result<Expr, Halt>>(
        cursor: &mut Cursor,
        alloc: Global,
        depth: u32,
        inner: &F,
    ) -> Result<ListLink, Halt> {
        let operator = cursor.cons_operator(depth)?;
        let operand = sum(cursor, alloc, depth, inner)?;
        Ok(ListLink {
            op: operator.0,
            pos: operator.1,
            operand,
        })
    }

    ghost repeats = { item-cons_link };
}

fn cons<F: Fn(&mut Cursor, u32) -> Result<Expr, Halt>>(
    cursor: &mut Cursor,
    alloc: Global,
    depth: u32,
    inner: &F,
) -> Result<Expr, Halt>
    requires { ReadsBelow F.Fn inner.now g.expr depth }
    ensures reads { Reads (parser.read (parser.enter depth) g.cons cursor.old) result cursor.new }
    ensures shorter { OnOk result (length cursor.new < length cursor.old) }
{
    let first = sum(cursor, alloc, depth, inner)?;
    let links = all_links::<Conses, F>(cursor, alloc, depth, inner)?;
    trees::cons(alloc, first, links)
}

fn comparison<F: Fn(&mut Cursor, u32) -> Result<Expr, Halt>>(
    cursor: &mut Cursor,
    alloc: Global,
    depth: u32,
    inner: &F,
) -> Result<Expr, Halt>
    requires { ReadsBelow F.Fn inner.now g.expr depth }
    ensures reads { Reads (parser.read (parser.enter depth) g.comparison cursor.old) result cursor.new }
    ensures shorter { OnOk result (length cursor.new < length cursor.old) }
{
    let first = cons(cursor, alloc, depth, inner)?;
    if cursor.at_compare_operator() {
        return compare_end(cursor, alloc, depth, inner, first);
    }
    Ok(first)
}

fn compare_end<F: Fn(&mut Cursor, u32) -> Result<Expr, Halt>>(
    cursor: &mut Cursor,
    alloc: Global,
    depth: u32,
    inner: &F,
    first: Expr,
) -> Result<Expr, Halt>
    requires { ReadsBelow F.Fn inner.now g.expr depth }
    ensures reads { Reads (parser.read_then (parser.enter depth) g.compare_end (λ c. parser.done (g.compare_tree first c)) cursor.old) result cursor.new }
    ensures shorter { OnOk result (length cursor.new < length cursor.old) }
{
    let rest = compared(cursor, alloc, depth, inner)?;
    trees::compare(alloc, first, rest)
}

/// An operator, its position, and what stands behind it.
fn compared<F: Fn(&mut Cursor, u32) -> Result<Expr, Halt>>(
    cursor: &mut Cursor,
    alloc: Global,
    depth: u32,
    inner: &F,
) -> Result<(CompareOp, Pos, Expr), Halt>
    requires { ReadsBelow F.Fn inner.now g.expr depth }
    ensures reads { Reads (parser.read (parser.enter depth) compared cursor.old) result cursor.new }
    ensures shorter { OnOk result (length cursor.new < length cursor.old) }
{
    let operator = cursor.compare_operator(depth)?;
    let second = cons(cursor, alloc, depth, inner)?;
    Ok((operator.0, operator.1, second))
}

/// The links of `&&`.
struct Ands;

impl Links for Ands {
    type Link = Link;

    ghost rule = { g.and_link };

    fn begins(cursor: &Cursor) -> bool {
        cursor.at_symbol(symbol::AND)
    }

    fn link<F: Fn(&mut Cursor, u32) -> Result<Expr, Halt>>(
        cursor: &mut Cursor,
        alloc: Global,
        depth: u32,
        inner: &F,
    ) -> Result<Link, Halt> {
        let pos = cursor.symbol(symbol::AND)?;
        let operand = comparison(cursor, alloc, depth, inner)?;
        Ok(Link { pos, operand })
    }

    ghost repeats = { item-and_link };
}

fn and<F: Fn(&mut Cursor, u32) -> Result<Expr, Halt>>(
    cursor: &mut Cursor,
    alloc: Global,
    depth: u32,
    inner: &F,
) -> Result<Expr, Halt>
    requires { ReadsBelow F.Fn inner.now g.expr depth }
    ensures reads { Reads (parser.read (parser.enter depth) g.and cursor.old) result cursor.new }
    ensures shorter { OnOk result (length cursor.new < length cursor.old) }
{
    let first = comparison(cursor, alloc, depth, inner)?;
    let links = all_links::<Ands, F>(cursor, alloc, depth, inner)?;
    trees::and(alloc, first, links)
}

/// The links of `||`.
struct Ors;

impl Links for Ors {
    type Link = Link;

    ghost rule = { g.or_link };

    fn begins(cursor: &Cursor) -> bool {
        cursor.at_symbol(symbol::OR)
    }

    fn link<F: Fn(&mut Cursor, u32) -> Result<Expr, Halt>>(
        cursor: &mut Cursor,
        alloc: Global,
        depth: u32,
        inner: &F,
    ) -> Result<Link, Halt> {
        let pos = cursor.symbol(symbol::OR)?;
        let operand = and(cursor, alloc, depth, inner)?;
        Ok(Link { pos, operand })
    }

    ghost repeats = { item-or_link };
}

pub fn or<F: Fn(&mut Cursor, u32) -> Result<Expr, Halt>>(
    cursor: &mut Cursor,
    alloc: Global,
    depth: u32,
    inner: &F,
) -> Result<Expr, Halt>
    requires { ReadsBelow F.Fn inner.now g.expr depth }
    ensures reads { Reads (parser.read (parser.enter depth) g.or cursor.old) result cursor.new }
    ensures shorter { OnOk result (length cursor.new < length cursor.old) }
{
    let first = and(cursor, alloc, depth, inner)?;
    let links = all_links::<Ors, F>(cursor, alloc, depth, inner)?;
    trees::or(alloc, first, links)
}
