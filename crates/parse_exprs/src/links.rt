ghost use Rattle.std.specs.Prelude.{◌≡◌, ◌<◌, ◌≤◌, length, OnOk};
ghost use Rattle.rules_grammar.specs.Grammar as g;
ghost use Rattle.rules_grammar.specs.GrammarForms.{Rule};
ghost use Rattle.hs_grammar.specs.Parser as parser;
ghost use Rattle.parse_leaves.specs.Readers.{ReadsBelow};
ghost use Rattle.parse_leaves.specs.Reads.{Reads};
ghost use Rattle.parse_leaves.proofs.Steps.{IsItem};

use hs_base::Expr;
use hs_items::Items;
use parse_leaves::{Cursor, Halt};
use std::alloc::Global;

/// Links of a chain, each an operator and what stands behind it.
pub trait Links {
    type Link: Drop;

    /// The rule of the grammar that a link is spelled by.
    ghost rule: { Rule Self.Link };

    /// Whether the next token begins a link.
    fn begins(cursor: &Cursor) -> bool
        ensures { result ≡ parser.begins (parser.firsts rule) cursor.now };

    /// A link.
    fn link<F: Fn(&mut Cursor, u32) -> Result<Expr, Halt>>(
        cursor: &mut Cursor,
        alloc: Global,
        depth: u32,
        inner: &F,
    ) -> Result<Self::Link, Halt>
        requires { ReadsBelow F.Fn inner.now g.expr depth }
        ensures reads { Reads (parser.read (parser.enter depth) rule cursor.old) result cursor.new }
        ensures shorter { OnOk result (length cursor.new < length cursor.old) };

    /// The rule takes a token at least, so that it can be repeated.
    ghost repeats: { IsItem rule };
}

/// As many links as there are.
pub fn all_links<L: Links, F: Fn(&mut Cursor, u32) -> Result<Expr, Halt>>(
    cursor: &mut Cursor,
    alloc: Global,
    depth: u32,
    inner: &F,
) -> Result<Items<L::Link>, Halt>
    requires { ReadsBelow F.Fn inner.now g.expr depth }
    ensures reads { Reads (parser.read (parser.enter depth) (g.many L.rule) cursor.old) result cursor.new }
    ensures shorter { OnOk result (length cursor.new ≤ length cursor.old) }
{
    let mut items = Items::new(alloc);
    'items: while L::begins(cursor) {
        items.add(L::link(cursor, alloc, depth, inner)?)?;
    }
    Ok(items)
}
