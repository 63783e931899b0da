ghost use Rattle.std.specs.Prelude.{◌+◌, ◌<◌, length, OnOk};
ghost use Rattle.rules_grammar.specs.Grammar as g;
ghost use Rattle.rules_grammar.specs.GrammarForms.{Rule};
ghost use Rattle.rules_grammar.specs.GrammarKinds as k;
ghost use Rattle.rules_grammar.specs.GrammarParts.{OpenerPart};
ghost use Rattle.hs_grammar.specs.Parser as parser;
ghost use Rattle.parse_leaves.specs.Readers.{ReadsBelow};
ghost use Rattle.parse_leaves.specs.Reads.{Reads};

use hs_base::{Expr, ExprArms};
use hs_items::Boxed;
use parse_leaves::case_arms::arms;
use parse_leaves::{Cursor, Halt};
use rules_tokens::symbol;
use std::alloc::Global;

pub fn boxed_arms<F: Fn(&mut Cursor, u32) -> Result<Expr, Halt>>(
    cursor: &mut Cursor,
    alloc: Global,
    depth: u32,
    inner: &F,
) -> Result<Boxed<ExprArms>, Halt>
    requires { ReadsBelow F.Fn inner.now g.expr depth }
    ensures reads { Reads (parser.read (parser.enter depth) (Rule.within (λ p arms. arms) k.open_brace OpenerPart.expr_arms) cursor.old) result cursor.new }
    ensures shorter { OnOk result (length cursor.new < length cursor.old) }
{
    let arms = expr_arms(cursor, alloc, depth, inner)?;
    Ok(Boxed::new(alloc, arms)?)
}

fn expr_arms<F: Fn(&mut Cursor, u32) -> Result<Expr, Halt>>(
    cursor: &mut Cursor,
    alloc: Global,
    depth: u32,
    inner: &F,
) -> Result<ExprArms, Halt>
    requires { ReadsBelow F.Fn inner.now g.expr depth }
    ensures reads { Reads (parser.read (parser.enter depth) (Rule.within (λ p arms. arms) k.open_brace OpenerPart.expr_arms) cursor.old) result cursor.new }
    ensures shorter { OnOk result (length cursor.new < length cursor.old) }
{
    cursor.open_symbol(symbol::OPEN_BRACE, depth)?;
    arms_in_braces(cursor, alloc, depth - 1, inner)
}

fn arms_in_braces<F: Fn(&mut Cursor, u32) -> Result<Expr, Halt>>(
    cursor: &mut Cursor,
    alloc: Global,
    depth: u32,
    inner: &F,
) -> Result<ExprArms, Halt>
    requires { ReadsBelow F.Fn inner.now g.expr (depth + 1) }
    ensures reads { Reads (parser.read (parser.enter depth) (g.rule_of OpenerPart.expr_arms) cursor.old) result cursor.new }
    ensures shorter { OnOk result (length cursor.new < length cursor.old) }
{
    let arms = arms(cursor, alloc, depth, inner)?;
    cursor.semicolon(depth)?;
    cursor.symbol(symbol::CLOSE_BRACE)?;
    Ok(arms)
}
