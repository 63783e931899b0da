ghost use Rattle.std.specs.Prelude.{◌≡◌, ◌+◌, ◌<◌, length, OnOk};
ghost use Rattle.rules_grammar.specs.Grammar as g;
ghost use Rattle.hs_grammar.specs.Parser as parser;
ghost use Rattle.parse_leaves.specs.Readers.{ReadsBelow};
ghost use Rattle.parse_leaves.specs.Reads.{Reads};

use hs_base::Expr;
use parse_leaves::{Cursor, Halt};

/// An expression that stands in an opener.
pub fn nested<'a, F: Fn(&mut Cursor<'a>, u32) -> Result<Expr, Halt>>(
    cursor: &mut Cursor<'a>,
    depth: u32,
    inner: &F,
) -> Result<Expr, Halt>
    requires { ReadsBelow F.Fn inner.now g.expr (depth + 1) }
    ensures reads { Reads (parser.read (parser.enter depth) g.expr cursor.old) result cursor.new }
    ensures shorter { OnOk result (length cursor.new < length cursor.old) }
{
    inner(cursor, depth)
}
