ghost use Rattle.std.specs.Prelude.{◌≡◌, ◌+◌, ◌<◌, ◌≤◌, length, OnOk, [], ◌∷◌};
ghost use Rattle.rules_grammar.specs.Grammar as g;
ghost use Rattle.rules_grammar.specs.GrammarForms.{Rule};
ghost use Rattle.rules_grammar.specs.GrammarKinds as k;
ghost use Rattle.rules_grammar.specs.GrammarParts.{OpenerPart};
ghost use Rattle.hs_grammar.specs.Parser as parser;
ghost use Rattle.parse_leaves.specs.Readers.{ReadsBelow};
ghost use Rattle.parse_leaves.specs.Reads.{Reads};
ghost use Rattle.parse_exprs.specs.Exprs.{branches};

use crate::arms::boxed_arms;
use crate::chains::or;
use crate::operands::nested;
use hs_base::{Expr, ExprArms, Name, Pos};
use hs_items::Boxed;
use parse_leaves::{Cursor, Halt};
use rules_tokens::{symbol, word};
use std::alloc::Global;

/// An expression, around what `inner` reads in its openers.
pub fn expr_with<F: Fn(&mut Cursor, u32) -> Result<Expr, Halt>>(
    cursor: &mut Cursor,
    alloc: Global,
    depth: u32,
    inner: &F,
) -> Result<Expr, Halt>
    requires { ReadsBelow F.Fn inner.now g.expr depth }
    ensures reads { Reads (parser.read (parser.enter depth) g.expr cursor.old) result cursor.new }
    ensures shorter { OnOk result (length cursor.new < length cursor.old) }
{
    if cursor.at_word(word::IF) {
        return expr_if(cursor, alloc, depth, inner);
    }
    if cursor.at_word(word::CASE) {
        return expr_case(cursor, alloc, depth, inner);
    }
    if cursor.at_word(word::LET) {
        return expr_let(cursor, alloc, depth, inner);
    }
    or(cursor, alloc, depth, inner)
}

fn expr_if<F: Fn(&mut Cursor, u32) -> Result<Expr, Halt>>(
    cursor: &mut Cursor,
    alloc: Global,
    depth: u32,
    inner: &F,
) -> Result<Expr, Halt>
    requires { ReadsBelow F.Fn inner.now g.expr depth }
    ensures reads { Reads (parser.read (parser.enter depth) (Rule.within (λ p x. Expr.If p x.0 x.1 x.2) k.if' OpenerPart.expr_if) cursor.old) result cursor.new }
    ensures shorter { OnOk result (length cursor.new < length cursor.old) }
{
    let pos = cursor.open_word(word::IF, depth)?;
    behind_if(cursor, alloc, depth - 1, inner, pos)
}

fn behind_if<F: Fn(&mut Cursor, u32) -> Result<Expr, Halt>>(
    cursor: &mut Cursor,
    alloc: Global,
    depth: u32,
    inner: &F,
    pos: Pos,
) -> Result<Expr, Halt>
    requires { ReadsBelow F.Fn inner.now g.expr (depth + 1) }
    ensures reads { Reads (parser.read_then (parser.enter depth) (g.rule_of OpenerPart.expr_if) (λ x. parser.done (Expr.If pos x.0 x.1 x.2)) cursor.old) result cursor.new }
    ensures shorter { OnOk result (length cursor.new < length cursor.old) }
{
    let test = boxed_expr(cursor, alloc, depth, inner)?;
    cursor.word(word::THEN)?;
    let branches = expr_branches(cursor, alloc, depth, inner)?;
    Ok(Expr::If(pos, test, branches.0, branches.1))
}

/// What stands behind `then`.
fn expr_branches<F: Fn(&mut Cursor, u32) -> Result<Expr, Halt>>(
    cursor: &mut Cursor,
    alloc: Global,
    depth: u32,
    inner: &F,
) -> Result<(Boxed<Expr>, Boxed<Expr>), Halt>
    requires { ReadsBelow F.Fn inner.now g.expr (depth + 1) }
    ensures reads { Reads (parser.read (parser.enter depth) branches cursor.old) result cursor.new }
    ensures shorter { OnOk result (length cursor.new < length cursor.old) }
{
    let yes = boxed_expr(cursor, alloc, depth, inner)?;
    cursor.word(word::ELSE)?;
    let no = boxed_expr(cursor, alloc, depth, inner)?;
    Ok((yes, no))
}

/// An expression in a box.
fn boxed_expr<F: Fn(&mut Cursor, u32) -> Result<Expr, Halt>>(
    cursor: &mut Cursor,
    alloc: Global,
    depth: u32,
    inner: &F,
) -> Result<Boxed<Expr>, Halt>
    requires { ReadsBelow F.Fn inner.now g.expr (depth + 1) }
    ensures reads { Reads (parser.read (parser.enter depth) g.expr cursor.old) result cursor.new }
    ensures shorter { OnOk result (length cursor.new < length cursor.old) }
{
    let value = nested(cursor, depth, inner)?;
    Ok(Boxed::new(alloc, value)?)
}

fn expr_let<F: Fn(&mut Cursor, u32) -> Result<Expr, Halt>>(
    cursor: &mut Cursor,
    alloc: Global,
    depth: u32,
    inner: &F,
) -> Result<Expr, Halt>
    requires { ReadsBelow F.Fn inner.now g.expr depth }
    ensures reads { Reads (parser.read (parser.enter depth) (Rule.within (λ p x. Expr.Let p x.0 x.1 x.2) k.let' OpenerPart.expr_let) cursor.old) result cursor.new }
    ensures shorter { OnOk result (length cursor.new < length cursor.old) }
{
    let pos = cursor.open_word(word::LET, depth)?;
    let parts = behind_let(cursor, alloc, depth - 1, inner)?;
    Ok(Expr::Let(pos, parts.0, parts.1, parts.2))
}

fn behind_let<F: Fn(&mut Cursor, u32) -> Result<Expr, Halt>>(
    cursor: &mut Cursor,
    alloc: Global,
    depth: u32,
    inner: &F,
) -> Result<(Name, Boxed<Expr>, Boxed<Expr>), Halt>
    requires { ReadsBelow F.Fn inner.now g.expr (depth + 1) }
    ensures reads { Reads (parser.read (parser.enter depth) (g.rule_of OpenerPart.expr_let) cursor.old) result cursor.new }
    ensures shorter { OnOk result (length cursor.new < length cursor.old) }
{
    let name = cursor.name(alloc)?;
    cursor.symbol(symbol::EQUAL)?;
    let value = boxed_expr(cursor, alloc, depth, inner)?;
    cursor.word(word::IN)?;
    let body = boxed_expr(cursor, alloc, depth, inner)?;
    Ok((name, value, body))
}

fn expr_case<F: Fn(&mut Cursor, u32) -> Result<Expr, Halt>>(
    cursor: &mut Cursor,
    alloc: Global,
    depth: u32,
    inner: &F,
) -> Result<Expr, Halt>
    requires { ReadsBelow F.Fn inner.now g.expr depth }
    ensures reads { Reads (parser.read (parser.enter depth) (Rule.within (λ p x. Expr.Case p x.0 x.1) k.case' OpenerPart.expr_case) cursor.old) result cursor.new }
    ensures shorter { OnOk result (length cursor.new < length cursor.old) }
{
    let pos = cursor.open_word(word::CASE, depth)?;
    let parts = behind_case(cursor, alloc, depth - 1, inner)?;
    Ok(Expr::Case(pos, parts.0, parts.1))
}

fn behind_case<F: Fn(&mut Cursor, u32) -> Result<Expr, Halt>>(
    cursor: &mut Cursor,
    alloc: Global,
    depth: u32,
    inner: &F,
) -> Result<(Boxed<Expr>, Boxed<ExprArms>), Halt>
    requires { ReadsBelow F.Fn inner.now g.expr (depth + 1) }
    ensures reads { Reads (parser.read (parser.enter depth) (g.rule_of OpenerPart.expr_case) cursor.old) result cursor.new }
    ensures shorter { OnOk result (length cursor.new < length cursor.old) }
{
    let subject = boxed_expr(cursor, alloc, depth, inner)?;
    cursor.word(word::OF)?;
    let arms = boxed_arms(cursor, alloc, depth, inner)?;
    Ok((subject, arms))
}
