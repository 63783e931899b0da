// Actions without blocks.

ghost use Rattle.rules_expansion.specs.trees.Trees.{ex_of, exs_of, wr_of};
ghost use Rattle.rules_expansion.specs.trees.Programs.{unary_act, binary_act, throw_io, new_empty, call};
ghost use Rattle.typing_judge.specs.JudgingActions.{judge_act};
ghost use Rattle.typing_parts.specs.JudgedAs.{JudgedIn};

use crate::exprs::{type_of, types_of};
use hs_base::tree::forms::{BinaryAction, UnaryAction};
use hs_base::tree::{Expr, Name, Written};
use hs_base::{NoMemory, Pos};
use hs_items::Items;
use typing_parts::checker::Checker;
use typing_parts::funs::Funs;
use typing_table::ty::TypeTerm;

/// An action with one expression.
#[tactic(auto, using(typing_parts::proofs::Noted::step_rules))]
pub fn unary(
    checker: &mut Checker,
    funs: &Funs,
    p: Pos,
    o: UnaryAction,
    e: &Expr,
) -> Result<Option<TypeTerm>, NoMemory>
    ensures { JudgedIn funs.now checker.old checker.new result (λ c s. judge_act c s (unary_act o p (ex_of e.now))) }
{
    let t = type_of(checker, funs, e)?;
    let r = checker.close_unary_act(&funs.types, p, o, t)?;
    Ok(r)
}

/// An action with two expressions.
#[tactic(auto, using(typing_parts::proofs::Noted::step_rules))]
pub fn binary(
    checker: &mut Checker,
    funs: &Funs,
    p: Pos,
    o: BinaryAction,
    a: &Expr,
    b: &Expr,
) -> Result<Option<TypeTerm>, NoMemory>
    ensures { JudgedIn funs.now checker.old checker.new result (λ c s. judge_act c s (binary_act o p (ex_of a.now) (ex_of b.now))) }
{
    let t = type_of(checker, funs, a)?;
    let u = type_of(checker, funs, b)?;
    let r = checker.close_binary_act(&funs.types, p, o, t, u)?;
    Ok(r)
}

/// `throwIO @t a`
#[tactic(auto, using(typing_parts::proofs::Noted::step_rules))]
pub fn throw(
    checker: &mut Checker,
    funs: &Funs,
    p: Pos,
    w: &Written,
    e: &Expr,
) -> Result<Option<TypeTerm>, NoMemory>
    ensures { JudgedIn funs.now checker.old checker.new result (λ c s. judge_act c s (throw_io p (wr_of w.now) (ex_of e.now))) }
{
    let t = checker.written(&funs.types, w)?;
    let u = type_of(checker, funs, e)?;
    let r = checker.close_throw(&funs.types, p, t, u)?;
    Ok(r)
}

/// `newEmptyMVar @t`
#[tactic(auto, using(typing_parts::proofs::Noted::step_rules))]
pub fn empty_cell(
    checker: &mut Checker,
    funs: &Funs,
    p: Pos,
    w: &Written,
) -> Result<Option<TypeTerm>, NoMemory>
    ensures { JudgedIn funs.now checker.old checker.new result (λ c s. judge_act c s (new_empty p (wr_of w.now))) }
{
    let t = checker.written(&funs.types, w)?;
    let r = checker.close_new_empty(&funs.types, p, t)?;
    Ok(r)
}

/// A call of an action function.
#[tactic(auto, using(typing_parts::proofs::Noted::step_rules))]
pub fn applied(
    checker: &mut Checker,
    funs: &Funs,
    x: &Name,
    es: &Items<Expr>,
) -> Result<Option<TypeTerm>, NoMemory>
    ensures { JudgedIn funs.now checker.old checker.new result (λ c s. judge_act c s (call x.now (exs_of es.now))) }
{
    let ts = types_of(checker, funs, es)?;
    let t = checker.close_act_call(funs, x, es.len(), ts)?;
    Ok(t)
}
