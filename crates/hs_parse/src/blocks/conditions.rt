ghost use Rattle.std.specs.Prelude.{◌≡◌, ◌+◌, ◌<◌, ◌≤◌, length, OnOk, [], ◌∷◌};
ghost use Rattle.rules_grammar.specs.Grammar as g;
ghost use Rattle.rules_grammar.specs.GrammarForms.{Rule};
ghost use Rattle.rules_grammar.specs.GrammarKinds as k;
ghost use Rattle.rules_grammar.specs.GrammarParts.{OpenerPart};
ghost use Rattle.hs_grammar.specs.Parser as parser;
ghost use Rattle.parse_leaves.specs.Readers.{ReadsBelow};
ghost use Rattle.parse_leaves.specs.Reads.{Reads};
ghost use Rattle.hs_parse.specs.blocks.Blocks.{branches, arms_behind_of};

use crate::actions::nested_block;
use crate::blocks::arms::block_arms;
use hs_base::{Action, Block, BlockArms, Expr};
use hs_items::Boxed;
use parse_exprs::expr;
use parse_leaves::{Cursor, Halt};
use rules_tokens::word;
use std::alloc::Global;

pub fn action_if<'a, F: Fn(&mut Cursor<'a>, u32) -> Result<Block, Halt>>(
    cursor: &mut Cursor<'a>,
    alloc: Global,
    depth: u32,
    inner: &F,
) -> Result<Action, Halt>
    requires { ReadsBelow F.Fn inner.now g.block depth }
    ensures reads { Reads (parser.read (parser.enter depth) (Rule.within (λ p x. Action.If p x.0 x.1 x.2) k.if' OpenerPart.block_if) cursor.old) result cursor.new }
    ensures shorter { OnOk result (length cursor.new < length cursor.old) }
{
    let pos = cursor.open_word(word::IF, depth)?;
    let parts = behind_action_if(cursor, alloc, depth - 1, inner)?;
    Ok(Action::If(pos, parts.0, parts.1, parts.2))
}

fn behind_action_if<'a, F: Fn(&mut Cursor<'a>, u32) -> Result<Block, Halt>>(
    cursor: &mut Cursor<'a>,
    alloc: Global,
    depth: u32,
    inner: &F,
) -> Result<(Expr, Block, Block), Halt>
    requires { ReadsBelow F.Fn inner.now g.block (depth + 1) }
    ensures reads { Reads (parser.read (parser.enter depth) (g.rule_of OpenerPart.block_if) cursor.old) result cursor.new }
    ensures shorter { OnOk result (length cursor.new < length cursor.old) }
{
    let test = expr(cursor, alloc, depth)?;
    let blocks = branches(cursor, depth, inner)?;
    Ok((test, blocks.0, blocks.1))
}

/// `then A else B`
fn branches<'a, F: Fn(&mut Cursor<'a>, u32) -> Result<Block, Halt>>(
    cursor: &mut Cursor<'a>,
    depth: u32,
    inner: &F,
) -> Result<(Block, Block), Halt>
    requires { ReadsBelow F.Fn inner.now g.block (depth + 1) }
    ensures reads { Reads (parser.read (parser.enter depth) branches cursor.old) result cursor.new }
    ensures shorter { OnOk result (length cursor.new < length cursor.old) }
{
    cursor.word(word::THEN)?;
    let yes = nested_block(cursor, depth, inner)?;
    cursor.word(word::ELSE)?;
    let no = nested_block(cursor, depth, inner)?;
    Ok((yes, no))
}

pub fn action_case<'a, F: Fn(&mut Cursor<'a>, u32) -> Result<Block, Halt>>(
    cursor: &mut Cursor<'a>,
    alloc: Global,
    depth: u32,
    inner: &F,
) -> Result<Action, Halt>
    requires { ReadsBelow F.Fn inner.now g.block depth }
    ensures reads { Reads (parser.read (parser.enter depth) (Rule.within (λ p x. Action.Case p x.0 x.1) k.case' OpenerPart.block_case) cursor.old) result cursor.new }
    ensures shorter { OnOk result (length cursor.new < length cursor.old) }
{
    let pos = cursor.open_word(word::CASE, depth)?;
    let parts = behind_action_case(cursor, alloc, depth - 1, inner)?;
    Ok(Action::Case(pos, parts.0, parts.1))
}

fn behind_action_case<'a, F: Fn(&mut Cursor<'a>, u32) -> Result<Block, Halt>>(
    cursor: &mut Cursor<'a>,
    alloc: Global,
    depth: u32,
    inner: &F,
) -> Result<(Expr, Boxed<BlockArms>), Halt>
    requires { ReadsBelow F.Fn inner.now g.block (depth + 1) }
    ensures reads { Reads (parser.read (parser.enter depth) (g.rule_of OpenerPart.block_case) cursor.old) result cursor.new }
    ensures shorter { OnOk result (length cursor.new < length cursor.old) }
{
    let subject = expr(cursor, alloc, depth)?;
    let arms = arms_behind_of(cursor, alloc, depth, inner)?;
    Ok((subject, arms))
}

/// `of { arms }`
fn arms_behind_of<'a, F: Fn(&mut Cursor<'a>, u32) -> Result<Block, Halt>>(
    cursor: &mut Cursor<'a>,
    alloc: Global,
    depth: u32,
    inner: &F,
) -> Result<Boxed<BlockArms>, Halt>
    requires { ReadsBelow F.Fn inner.now g.block (depth + 1) }
    ensures reads { Reads (parser.read (parser.enter depth) arms_behind_of cursor.old) result cursor.new }
    ensures shorter { OnOk result (length cursor.new < length cursor.old) }
{
    cursor.word(word::OF)?;
    let arms = block_arms(cursor, alloc, depth, inner)?;
    Ok(Boxed::new(alloc, arms)?)
}
