// The walk down a block.

ghost use Rattle.std.specs.Prelude.{IfOk};
ghost use Rattle.typing_table.specs.Meaning.{type_in};
ghost use Rattle.rules_expansion.specs.trees.Programs.{act_of, bl_of, stmt_of, act_arms_of, scoped, masking};
ghost use Rattle.rules_typing.specs.Typing.{no_mask, row_arms, row_choose};
ghost use Rattle.typing_judge.specs.Judging.{own, unless_wrong, with1};
ghost use Rattle.typing_judge.specs.JudgingActions.{judge_act, judge_act_arms, judge_bl};
ghost use Rattle.typing_parts.specs.Views.{opt_ty};
ghost use Rattle.typing_parts.specs.Contexts.{ctx_of};
ghost use Rattle.typing_parts.specs.Judged.{Stated};
ghost use Rattle.typing_walk.specs.actions.Parts.{row_two, second_part, third_part, handler_part, modify_part, async_part, bracket_part, case_part};
ghost use Rattle.typing_parts.specs.JudgedAs.{JudgedIn, under_part};

use crate::actions::closing::{TwoParts, close_two, dropped, kept_if};
use crate::actions::opening::{
    asked_form, back_to, mark, open, open_exception, open_mask, open_part,
};
use crate::actions::simple::{applied, binary, empty_cell, throw, unary};
use crate::exprs::type_of;
use hs_base::tree::forms::{BlockAction, MaskingAction};
use hs_base::tree::{Action, Block, BlockArms, Name, Stmt};
use hs_base::{NoMemory, Pos};
use typing_parts::Form;
use typing_parts::act_rows::bare_type;
use typing_parts::checker::Checker;
use typing_parts::funs::Funs;
use typing_parts::parts::{NamedPart, TypePart};
use typing_table::ty::TypeTerm;

/// The type of an action, where it has one.
#[cycle(acts)]
#[tactic(auto, using(crate::proofs::actions_lemmas::Acted::acted_rules))]
fn action(checker: &mut Checker, funs: &Funs, a: &Action) -> Result<Option<TypeTerm>, NoMemory>
    ensures { JudgedIn funs.now checker.old checker.new result (λ c s. judge_act c s (act_of a.now)) }
{
    match a {
        Action::Bare(w, _) => Ok(Some(TypeTerm::Base(bare_type(*w)))),
        Action::Unary(w, p, e) => unary(checker, funs, *p, *w, e),
        Action::Binary(w, p, d, e) => binary(checker, funs, *p, *w, d, e),
        Action::ThrowIo(p, w, e) => throw(checker, funs, *p, w, e),
        Action::NewEmptyMVar(p, w) => empty_cell(checker, funs, *p, w),
        Action::Call(x, es) => applied(checker, funs, x, es),
        Action::Scoped(w, p, b) => in_block(checker, funs, b, *p, *w),
        Action::Masking(w, p, x, b) => in_masking(checker, funs, b, *p, *w, x),
        Action::Restore(_, x, b) => restored(checker, funs, b, x),
        Action::If(p, e, b, d) => {
            let t = type_of(checker, funs, e)?;
            let u = block(checker, funs, b)?;
            third(checker, funs, d, *p, t, u)
        }
        Action::Case(p, e, arms) => {
            let t = type_of(checker, funs, e)?;
            arms_at(checker, funs, arms.get(), *p, t)
        }
        Action::ModifyMVar(p, e, x, b) => {
            let t = type_of(checker, funs, e)?;
            in_cell(checker, funs, b, *p, t, x)
        }
        Action::Catch(p, b, x, d) => {
            let t = block(checker, funs, b)?;
            caught(checker, funs, d, *p, t, x)
        }
        Action::Guard(w, p, b, d) => {
            let t = block(checker, funs, b)?;
            second(checker, funs, d, *p, TwoParts::Guard(*w), t)
        }
        Action::Bracket(p, b, x, d, h) => {
            let t = block(checker, funs, b)?;
            in_bracket(checker, funs, d, h, *p, Acquired { name: x, ty: t })
        }
        Action::Timeout(p, e, b) => {
            let t = type_of(checker, funs, e)?;
            second(checker, funs, b, *p, TwoParts::Timeout, t)
        }
        Action::WithAsync(p, b, x, d) => {
            let t = block(checker, funs, b)?;
            in_scope(checker, funs, d, *p, t, x)
        }
    }
}

/// An action with one block.
#[cycle(acts)]
#[tactic(auto, using(typing_parts::proofs::Noted::step_rules))]
fn in_block(
    checker: &mut Checker,
    funs: &Funs,
    b: &Block,
    p: Pos,
    o: BlockAction,
) -> Result<Option<TypeTerm>, NoMemory>
    ensures { JudgedIn funs.now checker.old checker.new result (λ c s. judge_act c s (scoped o p (bl_of b.now))) }
{
    let t = block(checker, funs, b)?;
    let r = checker.close_scoped(&funs.types, p, o, t)?;
    Ok(r)
}

/// An action with a block in which a masking name is bound.
#[cycle(acts)]
#[tactic(auto, using(typing_parts::proofs::Noted::step_rules))]
fn in_masking(
    checker: &mut Checker,
    funs: &Funs,
    b: &Block,
    p: Pos,
    o: MaskingAction,
    x: &Name,
) -> Result<Option<TypeTerm>, NoMemory>
    ensures { JudgedIn funs.now checker.old checker.new result (λ c s. judge_act c s (masking o p x.now (bl_of b.now))) }
{
    match open_mask(checker, &funs.types, x)? {
        false => Ok(None),
        true => {
            let t = block(checker, funs, b)?;
            checker.unbind(&funs.types);
            let r = checker.close_masking(&funs.types, p, o, t)?;
            Ok(r)
        }
    }
}

/// `restore x b`
#[cycle(acts)]
fn restored(
    checker: &mut Checker,
    funs: &Funs,
    b: &Block,
    x: &Name,
) -> Result<Option<TypeTerm>, NoMemory>
    ensures { JudgedIn funs.now checker.old checker.new result (λ c s. unless_wrong (no_mask c s x.now) (judge_bl c s (bl_of b.now))) }
{
    let is_mask = checker.check_mask(funs, x);
    let t = block(checker, funs, b)?;
    Ok(kept_if(is_mask, t))
}

/// The second block of an action, after the type of what stands before it.
#[cycle(acts)]
#[tactic(auto, using(typing_parts::proofs::Noted::step_rules))]
fn second(
    checker: &mut Checker,
    funs: &Funs,
    b: &Block,
    p: Pos,
    o: TwoParts,
    t: Option<TypeTerm>,
) -> Result<Option<TypeTerm>, NoMemory>
    ensures { JudgedIn funs.now checker.old checker.new result (λ c s. second_part (opt_ty funs.now.types.nodes t) (judge_bl c s (bl_of b.now)) (λ u v. own p (row_two o u v))) }
{
    let u = block(checker, funs, b)?;
    let r = close_two(checker, &funs.types, p, o, t, u)?;
    Ok(r)
}

/// The second branch of an `if`, after the types of what stands before it.
#[cycle(acts)]
#[tactic(auto, using(typing_parts::proofs::Noted::step_rules))]
fn third(
    checker: &mut Checker,
    funs: &Funs,
    b: &Block,
    p: Pos,
    t: Option<TypeTerm>,
    u: Option<TypeTerm>,
) -> Result<Option<TypeTerm>, NoMemory>
    ensures { JudgedIn funs.now checker.old checker.new result (λ c s. third_part (opt_ty funs.now.types.nodes t) (opt_ty funs.now.types.nodes u) (judge_bl c s (bl_of b.now)) (λ u v w. own p (row_choose u v w))) }
{
    let v = block(checker, funs, b)?;
    let r = checker.close_choose(&funs.types, p, t, u, v)?;
    Ok(r)
}

/// The handler of a `catch`, after the type of the block before it.
#[cycle(acts)]
#[tactic(auto, using(crate::proofs::actions_lemmas::Acted::caught_rules))]
fn caught(
    checker: &mut Checker,
    funs: &Funs,
    b: &Block,
    p: Pos,
    t: Option<TypeTerm>,
    x: &Name,
) -> Result<Option<TypeTerm>, NoMemory>
    ensures { JudgedIn funs.now checker.old checker.new result (λ c s. second_part (opt_ty funs.now.types.nodes t) (handler_part c s x.now (bl_of b.now)) (λ u v. own p (row_arms u v))) }
{
    match open_exception(checker, &funs.types, x)? {
        false => Ok(dropped(t)),
        true => {
            let u = block(checker, funs, b)?;
            checker.unbind(&funs.types);
            let r = checker.close_arms(&funs.types, p, t, u)?;
            Ok(r)
        }
    }
}

/// The block of a modification of a cell, after the cell's type.
#[cycle(acts)]
#[tactic(auto, using(typing_parts::proofs::Noted::step_rules))]
fn in_cell(
    checker: &mut Checker,
    funs: &Funs,
    b: &Block,
    p: Pos,
    t: Option<TypeTerm>,
    x: &Name,
) -> Result<Option<TypeTerm>, NoMemory>
    ensures { JudgedIn funs.now checker.old checker.new result (λ c s. with1 (opt_ty funs.now.types.nodes t) (modify_part c s p x.now (bl_of b.now))) }
{
    match t {
        None => Ok(None),
        Some(t) => {
            if !checker.fits(&funs.types, p, Form::Cell, &t)? {
                return Ok(None);
            }
            let u = under(checker, funs, b, TypePart::Inner.named(x), &t)?;
            let r = checker.close_modify(&funs.types, p, &t, u)?;
            Ok(r)
        }
    }
}

/// The block of an async scope, after the type of the one that runs beside it.
#[cycle(acts)]
#[tactic(auto, using(typing_parts::proofs::Noted::step_rules))]
fn in_scope(
    checker: &mut Checker,
    funs: &Funs,
    b: &Block,
    p: Pos,
    t: Option<TypeTerm>,
    x: &Name,
) -> Result<Option<TypeTerm>, NoMemory>
    ensures { JudgedIn funs.now checker.old checker.new result (λ c s. with1 (opt_ty funs.now.types.nodes t) (async_part c s p x.now (bl_of b.now))) }
{
    match t {
        None => Ok(None),
        Some(t) => match checker.scope_type(&funs.types, p, &t)? {
            None => Ok(None),
            Some(u) => {
                let r = under(checker, funs, b, TypePart::Whole.named(x), &u)?;
                Ok(r)
            }
        },
    }
}

/// The name of a `bracket`, and the type of the block before it, where it has one.
#[derive(Drop)]
struct Acquired<'a> {
    name: &'a Name,
    ty: Option<TypeTerm>,
}

/// The two blocks of a `bracket` under its name.
#[cycle(acts)]
#[tactic(auto, using(typing_parts::proofs::Noted::step_rules))]
fn in_bracket(
    checker: &mut Checker,
    funs: &Funs,
    b: &Block,
    d: &Block,
    p: Pos,
    acquired: Acquired,
) -> Result<Option<TypeTerm>, NoMemory>
    ensures { JudgedIn funs.now checker.old checker.new result (λ c s. with1 (opt_ty funs.now.types.nodes acquired.entry.ty) (bracket_part c s p acquired.entry.name.now (bl_of b.now) (bl_of d.now))) }
{
    let Acquired { name, ty } = acquired;
    match ty {
        None => Ok(None),
        Some(t) => match open(checker, &funs.types, name, t)? {
            false => Ok(None),
            true => {
                let u = block(checker, funs, b)?;
                let r = second(checker, funs, d, p, TwoParts::Bracket, u)?;
                checker.unbind(&funs.types);
                Ok(r)
            }
        },
    }
}

/// The arms of a `case`, after the type of what stands before them.
#[cycle(acts)]
#[tactic(auto, using(typing_parts::proofs::Noted::step_rules))]
fn arms_at(
    checker: &mut Checker,
    funs: &Funs,
    arms: &BlockArms,
    p: Pos,
    t: Option<TypeTerm>,
) -> Result<Option<TypeTerm>, NoMemory>
    ensures { JudgedIn funs.now checker.old checker.new result (λ c s. with1 (opt_ty funs.now.types.nodes t) (case_part c s p (act_arms_of arms.now))) }
{
    match t {
        None => Ok(None),
        Some(t) => {
            let form = asked_form(arms);
            if !checker.fits(&funs.types, p, form, &t)? {
                return Ok(None);
            }
            let r = in_arms(checker, funs, arms, p, &t)?;
            Ok(r)
        }
    }
}

/// The arms of a `case` at a type of their form.
#[cycle(acts)]
#[tactic(auto, using(crate::proofs::actions_lemmas::Acted::arms_rules))]
fn in_arms(
    checker: &mut Checker,
    funs: &Funs,
    arms: &BlockArms,
    p: Pos,
    t: &TypeTerm,
) -> Result<Option<TypeTerm>, NoMemory>
    ensures { JudgedIn funs.now checker.old checker.new result (λ c s. judge_act_arms c s p (type_in funs.now.types.nodes t.now) (act_arms_of arms.now)) }
{
    match arms {
        BlockArms::OfMaybe(a, x, b) => {
            let u = block(checker, funs, a)?;
            let v = under(checker, funs, b, TypePart::Inner.named(x), t)?;
            let r = checker.close_arms(&funs.types, p, u, v)?;
            Ok(r)
        }
        BlockArms::OfEither(x, a, y, b) => {
            let u = under(checker, funs, a, TypePart::First.named(x), t)?;
            let v = under(checker, funs, b, TypePart::Second.named(y), t)?;
            let r = checker.close_arms(&funs.types, p, u, v)?;
            Ok(r)
        }
        BlockArms::OfList(a, x, y, b) => {
            let u = block(checker, funs, a)?;
            let v = under_two(
                checker,
                funs,
                b,
                TypePart::Inner.named(x),
                TypePart::Whole.named(y),
                t,
            )?;
            let r = checker.close_arms(&funs.types, p, u, v)?;
            Ok(r)
        }
        BlockArms::OfPair(x, y, a) => {
            let r = under_two(
                checker,
                funs,
                a,
                TypePart::First.named(x),
                TypePart::Second.named(y),
                t,
            )?;
            Ok(r)
        }
    }
}

/// A block in which a name has a part of a type.
#[cycle(acts)]
fn under(
    checker: &mut Checker,
    funs: &Funs,
    b: &Block,
    x: NamedPart,
    t: &TypeTerm,
) -> Result<Option<TypeTerm>, NoMemory>
    ensures { JudgedIn funs.now checker.old checker.new result (λ c s. under_part (type_in funs.now.types.nodes t.now) x.entry s (λ u. judge_bl c u (bl_of b.now))) }
{
    match open_part(checker, &funs.types, x, t)? {
        false => Ok(None),
        true => {
            let r = block(checker, funs, b)?;
            checker.unbind(&funs.types);
            Ok(r)
        }
    }
}

/// A block in which two names have parts of a type.
#[cycle(acts)]
fn under_two(
    checker: &mut Checker,
    funs: &Funs,
    b: &Block,
    x: NamedPart,
    y: NamedPart,
    t: &TypeTerm,
) -> Result<Option<TypeTerm>, NoMemory>
    ensures { JudgedIn funs.now checker.old checker.new result (λ c s. under_part (type_in funs.now.types.nodes t.now) x.entry s (λ u. under_part (type_in funs.now.types.nodes t.now) y.entry u (λ v. judge_bl c v (bl_of b.now)))) }
{
    match open_part(checker, &funs.types, x, t)? {
        false => Ok(None),
        true => {
            let r = under(checker, funs, b, y, t)?;
            checker.unbind(&funs.types);
            Ok(r)
        }
    }
}

/// Judges a statement and binds its name: false where it is broken.
#[cycle(acts)]
#[tactic(auto, using(crate::proofs::actions_lemmas::Acted::stated_rules))]
fn stmt(checker: &mut Checker, funs: &Funs, st: &Stmt) -> Result<bool, NoMemory>
    ensures { IfOk result (λ b. Stated funs.now.types.nodes (ctx_of funs.now) checker.old checker.new b (stmt_of st.now)) }
{
    match st {
        Stmt::Do(a) => {
            let t = action(checker, funs, a)?;
            Ok(t.is_some())
        }
        Stmt::Bind(x, a) => {
            checker.check_room(&funs.types, x);
            let t = action(checker, funs, a)?;
            let b = checker.begin(&funs.types, x, t)?;
            Ok(b)
        }
        Stmt::Let(x, e) => {
            checker.check_room(&funs.types, x);
            let t = type_of(checker, funs, e)?;
            let b = checker.begin(&funs.types, x, t)?;
            Ok(b)
        }
    }
}

/// The type of a block, where it has one.
#[cycle(acts)]
#[tactic(auto, using(rules_expansion::proofs::trees_lemmas::EquationsOfActions::bl_is))]
pub fn block(checker: &mut Checker, funs: &Funs, b: &Block) -> Result<Option<TypeTerm>, NoMemory>
    ensures { JudgedIn funs.now checker.old checker.new result (λ c s. judge_bl c s (bl_of b.now)) }
{
    let mark = mark(checker, &funs.types);
    'stmts: for st in b.stmts.as_slice() {
        if !stmt(checker, funs, st)? {
            back_to(checker, &funs.types, mark);
            return Ok(None);
        }
    }
    let t = action(checker, funs, b.last.get())?;
    back_to(checker, &funs.types, mark);
    Ok(t)
}
