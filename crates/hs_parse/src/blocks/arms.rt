ghost use Rattle.std.specs.Prelude.{◌+◌, ◌<◌, length, OnOk};
ghost use Rattle.rules_grammar.specs.Grammar as g;
ghost use Rattle.rules_grammar.specs.GrammarForms.{Rule};
ghost use Rattle.rules_grammar.specs.GrammarKinds as k;
ghost use Rattle.rules_grammar.specs.GrammarParts.{OpenerPart};
ghost use Rattle.hs_grammar.specs.Parser as parser;
ghost use Rattle.parse_leaves.specs.Readers.{ReadsBelow};
ghost use Rattle.parse_leaves.specs.Reads.{Reads};

use hs_base::{Block, BlockArms};
use parse_leaves::case_arms::arms;
use parse_leaves::{Cursor, Halt};
use rules_tokens::symbol;
use std::alloc::Global;

pub fn block_arms<'a, F: Fn(&mut Cursor<'a>, u32) -> Result<Block, Halt>>(
    cursor: &mut Cursor<'a>,
    alloc: Global,
    depth: u32,
    inner: &F,
) -> Result<BlockArms, Halt>
    requires { ReadsBelow F.Fn inner.now g.block depth }
    ensures reads { Reads (parser.read (parser.enter depth) (Rule.within (λ p arms. arms) k.open_brace OpenerPart.block_arms) cursor.old) result cursor.new }
    ensures shorter { OnOk result (length cursor.new < length cursor.old) }
{
    cursor.open_symbol(symbol::OPEN_BRACE, depth)?;
    block_arms_in_braces(cursor, alloc, depth - 1, inner)
}

fn block_arms_in_braces<'a, F: Fn(&mut Cursor<'a>, u32) -> Result<Block, Halt>>(
    cursor: &mut Cursor<'a>,
    alloc: Global,
    depth: u32,
    inner: &F,
) -> Result<BlockArms, Halt>
    requires { ReadsBelow F.Fn inner.now g.block (depth + 1) }
    ensures reads { Reads (parser.read (parser.enter depth) (g.rule_of OpenerPart.block_arms) cursor.old) result cursor.new }
    ensures shorter { OnOk result (length cursor.new < length cursor.old) }
{
    let arms = arms(cursor, alloc, depth, inner)?;
    cursor.semicolon(depth)?;
    cursor.symbol(symbol::CLOSE_BRACE)?;
    Ok(arms)
}
