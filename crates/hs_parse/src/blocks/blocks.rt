ghost use Rattle.std.specs.Prelude.{◌≡◌, ◌+◌, ◌<◌, ◌≤◌, length, OnOk, [], ◌∷◌};
ghost use Rattle.rules_grammar.specs.Grammar as g;
ghost use Rattle.hs_grammar.specs.Parser as parser;
ghost use Rattle.parse_leaves.specs.Reads.{Reads};

use crate::blocks::stmts::block_in_braces;
use hs_base::Block;
use parse_leaves::{Cursor, Halt};
use rules_tokens::symbol;
use std::alloc::Global;

/// A block.
pub fn block<'a>(cursor: &mut Cursor<'a>, alloc: Global, depth: u32) -> Result<Block, Halt>
    ensures reads { Reads (parser.read (parser.enter depth) g.block cursor.old) result cursor.new }
    ensures shorter { OnOk result (length cursor.new < length cursor.old) }
{
    cursor.open_symbol(symbol::OPEN_BRACE, depth)?;
    let inner = |c: &mut Cursor, d: u32| -> Result<Block, Halt>
        requires { d < depth }
        ensures { Reads (parser.read (parser.enter d) g.block c.old) result c.new × OnOk result (length c.new < length c.old) }
    {
        let _levels = &depth;
        block(c, alloc, d)
    };
    block_in_braces(cursor, alloc, depth - 1, &inner)
}
