ghost use Rattle.std.specs.Prelude.{◌≡◌, [], ◌∷◌};
ghost use Rattle.rules_grammar.specs.Grammar as g;
ghost use Rattle.hs_grammar.specs.Parser as parser;
ghost use Rattle.parse_leaves.specs.Reads.{Reads};

use crate::halt::Halt;
use hs_base::{CompareOp, Expr, Link, ListLink, Pos, SumLink};
use hs_items::{Boxed, Items};
use std::alloc::Global;

/// Items with one in front.
pub fn items(alloc: Global, first: Expr, rest: Items<Expr>) -> Result<Items<Expr>, Halt>
    ensures { Reads (parser.Out.Done (first ∷ rest) []) result [] }
{
    let mut items = Items::new(alloc);
    items.add(first)?;
    items.append(rest)?;
    Ok(items)
}

/// A first operand alone is no chain.
pub fn or(alloc: Global, first: Expr, links: Items<Link>) -> Result<Expr, Halt>
    ensures { Reads (parser.Out.Done (g.or_tree first links) []) result [] }
{
    if links.is_empty() {
        Ok(first)
    } else {
        Ok(Expr::Or(Boxed::new(alloc, first)?, links))
    }
}

/// A first operand alone is no chain.
pub fn and(alloc: Global, first: Expr, links: Items<Link>) -> Result<Expr, Halt>
    ensures { Reads (parser.Out.Done (g.and_tree first links) []) result [] }
{
    if links.is_empty() {
        Ok(first)
    } else {
        Ok(Expr::And(Boxed::new(alloc, first)?, links))
    }
}

/// A first operand alone is no chain.
pub fn cons(alloc: Global, first: Expr, links: Items<ListLink>) -> Result<Expr, Halt>
    ensures { Reads (parser.Out.Done (g.cons_tree first links) []) result [] }
{
    if links.is_empty() {
        Ok(first)
    } else {
        Ok(Expr::Cons(Boxed::new(alloc, first)?, links))
    }
}

/// A first operand alone is no chain.
pub fn sum(alloc: Global, first: Expr, links: Items<SumLink>) -> Result<Expr, Halt>
    ensures { Reads (parser.Out.Done (g.sum_tree first links) []) result [] }
{
    if links.is_empty() {
        Ok(first)
    } else {
        Ok(Expr::Sum(Boxed::new(alloc, first)?, links))
    }
}

/// A first operand alone is no chain.
pub fn product(alloc: Global, first: Expr, links: Items<Link>) -> Result<Expr, Halt>
    ensures { Reads (parser.Out.Done (g.product_tree first links) []) result [] }
{
    if links.is_empty() {
        Ok(first)
    } else {
        Ok(Expr::Product(Boxed::new(alloc, first)?, links))
    }
}

/// A pair.
pub fn pair(alloc: Global, pos: Pos, first: Expr, second: Expr) -> Result<Expr, Halt>
    ensures { Reads (parser.Out.Done (Expr.Pair pos first second) []) result [] }
{
    let first = Boxed::new(alloc, first)?;
    let second = Boxed::new(alloc, second)?;
    Ok(Expr::Pair(pos, first, second))
}

/// A comparison.
pub fn compare(alloc: Global, first: Expr, rest: (CompareOp, Pos, Expr)) -> Result<Expr, Halt>
    ensures { Reads (parser.Out.Done (Expr.Compare first rest.0 rest.1 rest.2) []) result [] }
{
    let first = Boxed::new(alloc, first)?;
    let second = Boxed::new(alloc, rest.2)?;
    Ok(Expr::Compare(first, rest.0, rest.1, second))
}
