ghost use Rattle.std.specs.Prelude.{◌≡◌, ◌+◌, ◌<◌, ◌≤◌, length, OnOk, [], ◌∷◌};
ghost use Rattle.rules_grammar.specs.Grammar as g;
ghost use Rattle.rules_grammar.specs.GrammarForms.{Rule};
ghost use Rattle.rules_grammar.specs.GrammarKinds as k;
ghost use Rattle.rules_grammar.specs.GrammarParts.{OpenerPart};
ghost use Rattle.hs_grammar.specs.Parser as parser;
ghost use Rattle.parse_leaves.specs.Readers.{ReadsBelow};
ghost use Rattle.parse_leaves.specs.Reads.{Reads};
ghost use Rattle.hs_parse.specs.blocks.Blocks.{step_of, block_step, behind_as};

use crate::actions::word_action;
use crate::blocks::conditions::{action_case, action_if};
use crate::blocks::step::Step;
use hs_base::{Action, Block, Expr, Name, Stmt};
use hs_items::{Boxed, Items};
use parse_exprs::{args, expr};
use parse_leaves::{Cursor, Halt};
use rules_tokens::{symbol, word};
use std::alloc::Global;

fn other_action<'a, F: Fn(&mut Cursor<'a>, u32) -> Result<Block, Halt>>(
    cursor: &mut Cursor<'a>,
    alloc: Global,
    depth: u32,
    inner: &F,
) -> Result<Action, Halt>
    requires { ReadsBelow F.Fn inner.now g.block (depth + 1) }
    ensures reads { Reads (parser.read (parser.enter depth) g.other_action cursor.old) result cursor.new }
    ensures shorter { OnOk result (length cursor.new < length cursor.old) }
{
    if cursor.at_word(word::IF) {
        return action_if(cursor, alloc, depth, inner);
    }
    if cursor.at_word(word::CASE) {
        return action_case(cursor, alloc, depth, inner);
    }
    word_action(cursor, alloc, depth, inner)
}

fn action<'a, F: Fn(&mut Cursor<'a>, u32) -> Result<Block, Halt>>(
    cursor: &mut Cursor<'a>,
    alloc: Global,
    depth: u32,
    inner: &F,
) -> Result<Action, Halt>
    requires { ReadsBelow F.Fn inner.now g.block (depth + 1) }
    ensures reads { Reads (parser.read (parser.enter depth) g.action cursor.old) result cursor.new }
    ensures shorter { OnOk result (length cursor.new < length cursor.old) }
{
    if cursor.at_name() {
        let name = cursor.name(alloc)?;
        let args = args(cursor, alloc, depth)?;
        return Ok(Action::Call(name, args));
    }
    other_action(cursor, alloc, depth, inner)
}

fn after_name<'a, F: Fn(&mut Cursor<'a>, u32) -> Result<Block, Halt>>(
    cursor: &mut Cursor<'a>,
    alloc: Global,
    depth: u32,
    inner: &F,
    name: Name,
) -> Result<Step, Halt>
    requires { ReadsBelow F.Fn inner.now g.block (depth + 1) }
    ensures reads { Reads (parser.read_then (parser.enter depth) g.after_name (λ f. parser.done (step_of (f name))) cursor.old) result cursor.new }
    ensures shorter { OnOk result (length cursor.new ≤ length cursor.old) }
{
    if cursor.at_symbol(symbol::LEFT_ARROW) {
        cursor.symbol(symbol::LEFT_ARROW)?;
        let action = action(cursor, alloc, depth, inner)?;
        return Ok(Step::Stmt(Stmt::Bind(name, action)));
    }
    let args = args(cursor, alloc, depth)?;
    Ok(Step::Last(Action::Call(name, args)))
}

fn let_stmt(cursor: &mut Cursor, alloc: Global, depth: u32) -> Result<(Name, Expr), Halt>
    ensures reads { Reads (parser.read (parser.enter depth) (Rule.within (λ p x. x) k.let' OpenerPart.let_stmt) cursor.old) result cursor.new }
    ensures shorter { OnOk result (length cursor.new < length cursor.old) }
{
    cursor.open_word(word::LET, depth)?;
    behind_stmt_let(cursor, alloc, depth - 1)
}

fn behind_stmt_let(cursor: &mut Cursor, alloc: Global, depth: u32) -> Result<(Name, Expr), Halt>
    ensures reads { Reads (parser.read (parser.enter depth) (g.rule_of OpenerPart.let_stmt) cursor.old) result cursor.new }
    ensures shorter { OnOk result (length cursor.new < length cursor.old) }
{
    let name = cursor.name(alloc)?;
    cursor.symbol(symbol::EQUAL)?;
    let value = expr(cursor, alloc, depth)?;
    Ok((name, value))
}

fn block_item<'a, F: Fn(&mut Cursor<'a>, u32) -> Result<Block, Halt>>(
    cursor: &mut Cursor<'a>,
    alloc: Global,
    depth: u32,
    inner: &F,
) -> Result<Step, Halt>
    requires { ReadsBelow F.Fn inner.now g.block (depth + 1) }
    ensures reads { Reads (parser.read_then (parser.enter depth) g.block_item (λ x. parser.done (step_of x)) cursor.old) result cursor.new }
    ensures shorter { OnOk result (length cursor.new < length cursor.old) }
{
    if cursor.at_name() {
        let name = cursor.name(alloc)?;
        return after_name(cursor, alloc, depth, inner, name);
    }
    if cursor.at_word(word::LET) {
        let parts = let_stmt(cursor, alloc, depth)?;
        return Ok(Step::Stmt(Stmt::Let(parts.0, parts.1)));
    }
    let action = other_action(cursor, alloc, depth, inner)?;
    Ok(Step::Last(action))
}

fn block_step<'a, F: Fn(&mut Cursor<'a>, u32) -> Result<Block, Halt>>(
    cursor: &mut Cursor<'a>,
    alloc: Global,
    depth: u32,
    inner: &F,
) -> Result<Step, Halt>
    requires { ReadsBelow F.Fn inner.now g.block (depth + 1) }
    ensures reads { Reads (block_step depth cursor.old) result cursor.new }
    ensures shorter { OnOk result (length cursor.new < length cursor.old) }
{
    let step = block_item(cursor, alloc, depth, inner)?;
    match step {
        Step::Stmt(stmt) => {
            cursor.symbol(symbol::SEMICOLON)?;
            Ok(Step::Stmt(stmt))
        }
        Step::Last(action) => behind_action(cursor, action),
    }
}

fn behind_action(cursor: &mut Cursor, action: Action) -> Result<Step, Halt>
    ensures reads { Reads (behind_as action cursor.old) result cursor.new }
    ensures shorter { OnOk result (length cursor.new < length cursor.old) }
{
    if cursor.at_symbol(symbol::CLOSE_BRACE) {
        cursor.symbol(symbol::CLOSE_BRACE)?;
        return Ok(Step::Last(action));
    }
    cursor.symbol(symbol::SEMICOLON)?;
    if cursor.at_symbol(symbol::CLOSE_BRACE) {
        cursor.symbol(symbol::CLOSE_BRACE)?;
        return Ok(Step::Last(action));
    }
    Ok(Step::Stmt(Stmt::Do(action)))
}

pub fn block_in_braces<'a, F: Fn(&mut Cursor<'a>, u32) -> Result<Block, Halt>>(
    cursor: &mut Cursor<'a>,
    alloc: Global,
    depth: u32,
    inner: &F,
) -> Result<Block, Halt>
    requires { ReadsBelow F.Fn inner.now g.block (depth + 1) }
    ensures reads { Reads (parser.read (parser.enter depth) (g.rule_of OpenerPart.block_in_braces) cursor.old) result cursor.new }
    ensures shorter { OnOk result (length cursor.new < length cursor.old) }
{
    let mut stmts = Items::new(alloc);
    'items: loop {
        let step = block_step(cursor, alloc, depth, inner)?;
        match step {
            Step::Stmt(stmt) => stmts.add(stmt)?,
            Step::Last(last) => return Ok(Block {
                stmts,
                last: Boxed::new(alloc, last)?,
            }),
        }
    }
}
