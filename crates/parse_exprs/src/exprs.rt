ghost use Rattle.std.specs.Prelude.{◌≡◌, ◌<◌, ◌≤◌, length, OnOk};
ghost use Rattle.rules_grammar.specs.Grammar as g;
ghost use Rattle.hs_grammar.specs.Parser as parser;
ghost use Rattle.parse_leaves.specs.Reads.{Reads};

use crate::forms::expr_with;
use crate::operands;
use hs_base::Expr;
use hs_items::Items;
use parse_leaves::{Cursor, Halt};
use std::alloc::Global;

/// An expression.
pub fn expr<'a>(cursor: &mut Cursor<'a>, alloc: Global, depth: u32) -> Result<Expr, Halt>
    ensures reads { Reads (parser.read (parser.enter depth) g.expr cursor.old) result cursor.new }
    ensures shorter { OnOk result (length cursor.new < length cursor.old) }
{
    let inner = |c: &mut Cursor, d: u32| -> Result<Expr, Halt>
        requires { d < depth }
        ensures { Reads (parser.read (parser.enter d) g.expr c.old) result c.new × OnOk result (length c.new < length c.old) }
    {
        let _levels = &depth;
        expr(c, alloc, d)
    };
    expr_with(cursor, alloc, depth, &inner)
}

/// An argument.
pub fn arg<'a>(cursor: &mut Cursor<'a>, alloc: Global, depth: u32) -> Result<Expr, Halt>
    ensures reads { Reads (parser.read (parser.enter depth) g.arg cursor.old) result cursor.new }
    ensures shorter { OnOk result (length cursor.new < length cursor.old) }
{
    let inner = |c: &mut Cursor, d: u32| -> Result<Expr, Halt>
        ensures { Reads (parser.read (parser.enter d) g.expr c.old) result c.new × OnOk result (length c.new < length c.old) }
    { expr(c, alloc, d) };
    operands::arg(cursor, alloc, depth, &inner)
}

/// Any number of arguments.
pub fn args<'a>(cursor: &mut Cursor<'a>, alloc: Global, depth: u32) -> Result<Items<Expr>, Halt>
    ensures reads { Reads (parser.read (parser.enter depth) (g.many g.arg) cursor.old) result cursor.new }
    ensures shorter { OnOk result (length cursor.new ≤ length cursor.old) }
{
    let inner = |c: &mut Cursor, d: u32| -> Result<Expr, Halt>
        ensures { Reads (parser.read (parser.enter d) g.expr c.old) result c.new × OnOk result (length c.new < length c.old) }
    { expr(c, alloc, d) };
    operands::args(cursor, alloc, depth, &inner)
}

/// Two arguments.
pub fn two_args<'a>(
    cursor: &mut Cursor<'a>,
    alloc: Global,
    depth: u32,
) -> Result<(Expr, Expr), Halt>
    ensures reads { Reads (parser.read (parser.enter depth) g.two_args cursor.old) result cursor.new }
    ensures shorter { OnOk result (length cursor.new < length cursor.old) }
{
    let inner = |c: &mut Cursor, d: u32| -> Result<Expr, Halt>
        ensures { Reads (parser.read (parser.enter d) g.expr c.old) result c.new × OnOk result (length c.new < length c.old) }
    { expr(c, alloc, d) };
    operands::two_args(cursor, alloc, depth, &inner)
}
