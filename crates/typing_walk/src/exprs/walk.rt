//! The walk itself: one cycle of calls over the parts of an expression. A function has the tree that it goes down as its
//! first tree, and what is known of the parts before it after that. `two` and `chain` go down two trees each, so the
//! measures of the cycle are written out.
ghost use Rattle.std.specs.Prelude.{◌∷◌, [], IfOk};
ghost use Rattle.rules_expansion.specs.trees.Trees.{binary, chain, items, name, ex_of, exs_of, arms_of, links_of, sum_links_of, list_links_of};
ghost use Rattle.rules_typing.specs.Typing.{of, bound, form_of_arms, row_unary, row_binary, row_choose, row_side};
ghost use Rattle.typing_judge.specs.Judging.{after, needing, not_full, own, part, parts2, parts3, folded, judge, judges, judge_links, judge_arms, operand_faults, operand_types};
ghost use Rattle.typing_table.specs.Meaning.{type_in};
ghost use Rattle.typing_parts.specs.Views.{opt_ty, opt_tys, opts_of};
ghost use Rattle.typing_parts.specs.Contexts.{ctx_of};
ghost use Rattle.typing_parts.specs.Judged.{JudgedAll, Gathered, names};
ghost use Rattle.typing_parts.specs.JudgedAs.{JudgedIn, earlier, under_part};

use crate::exprs::forms::{asked_form, compare_form, sum_form};
use crate::exprs::leaves::{added, alone, constant_type, empty, enter, fitting};
use hs_base::tree::forms::{BinaryForm, SideForm, UnaryForm};
use hs_base::tree::{Expr, ExprArms, Link, ListLink, Name, SumLink};
use hs_base::{NoMemory, Pos};
use hs_items::Items;
use typing_parts::checker::Checker;
use typing_parts::funs::Funs;
use typing_parts::parts::{NamedPart, TypePart};
use typing_parts::rows::Sides;
use typing_table::base::Base;
use typing_table::ty::TypeTerm;

/// The type of an expression, where it has one.
#[cycle(walk)]
#[tactic(auto, using(typing_parts::proofs::Noted::noted_rules))]
pub fn type_of(checker: &mut Checker, funs: &Funs, e: &Expr) -> Result<Option<TypeTerm>, NoMemory>
    ensures { JudgedIn funs.now checker.old checker.new result (λ c s. judge c s (ex_of e.now)) }
{
    match e {
        Expr::Int(_, _) => Ok(Some(TypeTerm::Base(Base::Int))),
        Expr::Text(_, _) => Ok(Some(TypeTerm::Base(Base::Text))),
        Expr::Constant(_, c) => Ok(Some(TypeTerm::Base(constant_type(*c)))),
        Expr::Unit(_) => Ok(Some(TypeTerm::Base(Base::Unit))),
        Expr::Empty(w, p, t) => empty(checker, &funs.types, *p, *w, t),
        Expr::Unary(w, p, a) => unary(checker, funs, a.get(), *p, *w),
        Expr::Side(w, p, s, t, a) => {
            let left = checker.written(&funs.types, s)?;
            let right = checker.written(&funs.types, t)?;
            side(checker, funs, a.get(), *p, *w, Sides { left, right })
        }
        Expr::Compare(a, o, p, b) => {
            let o = compare_form(*o);
            two(checker, funs, a.get(), b.get(), *p, o)
        }
        Expr::Div(p, a, b) => two(checker, funs, a.get(), b.get(), *p, BinaryForm::Div),
        Expr::Mod(p, a, b) => two(checker, funs, a.get(), b.get(), *p, BinaryForm::Mod),
        Expr::Pair(p, a, b) => two(checker, funs, a.get(), b.get(), *p, BinaryForm::Pair),
        Expr::Or(a, ks) => chain(checker, funs, ks, BinaryForm::Or, a.get()),
        Expr::And(a, ks) => chain(checker, funs, ks, BinaryForm::And, a.get()),
        Expr::Product(a, ks) => chain(checker, funs, ks, BinaryForm::Times, a.get()),
        Expr::Sum(a, ks) => {
            let t = type_of(checker, funs, a.get())?;
            sum_links(checker, funs, ks, t)
        }
        Expr::Cons(a, ks) => {
            let t = type_of(checker, funs, a.get())?;
            conses(checker, funs, ks, t)
        }
        Expr::If(p, c, a, b) => {
            let t = type_of(checker, funs, c.get())?;
            let u = type_of(checker, funs, a.get())?;
            third(checker, funs, b.get(), *p, t, u)
        }
        Expr::Let(_, x, a, b) => {
            checker.check_room(&funs.types, x);
            let t = type_of(checker, funs, a.get())?;
            given(checker, funs, b.get(), x, t)
        }
        Expr::Case(p, a, arms) => {
            let t = type_of(checker, funs, a.get())?;
            case(checker, funs, arms.get(), *p, t)
        }
        Expr::Call(x, es) => call(checker, funs, es, x),
        Expr::List(p, es) => list(checker, funs, es, *p),
    }
}

/// A form with one part.
#[cycle(walk)]
#[tactic(auto, using(typing_parts::proofs::Noted::noted_rules))]
fn unary(
    checker: &mut Checker,
    funs: &Funs,
    a: &Expr,
    p: Pos,
    o: UnaryForm,
) -> Result<Option<TypeTerm>, NoMemory>
    ensures { JudgedIn funs.now checker.old checker.new result (λ c s. part (judge c s (ex_of a.now)) (λ u. own p (row_unary o u))) }
{
    let t = type_of(checker, funs, a)?;
    let r = checker.close_unary(&funs.types, p, o, t)?;
    Ok(r)
}

/// `Left` or `Right`, after the types that it is written with.
#[cycle(walk)]
#[tactic(auto, using(typing_parts::proofs::Noted::noted_rules))]
fn side(
    checker: &mut Checker,
    funs: &Funs,
    a: &Expr,
    p: Pos,
    o: SideForm,
    sides: Sides,
) -> Result<Option<TypeTerm>, NoMemory>
    ensures { JudgedIn funs.now checker.old checker.new result (λ c s. parts3 (earlier funs.now sides.left) (earlier funs.now sides.right) (judge c s (ex_of a.now)) (λ u v w. own p (row_side o u v w))) }
{
    let t = type_of(checker, funs, a)?;
    let r = checker.close_side(&funs.types, p, o, sides, t)?;
    Ok(r)
}

/// A form with two parts.
#[cycle(walk)]
#[tactic(auto, using(typing_parts::proofs::Noted::noted_rules))]
fn two(
    checker: &mut Checker,
    funs: &Funs,
    a: &Expr,
    b: &Expr,
    p: Pos,
    o: BinaryForm,
) -> Result<Option<TypeTerm>, NoMemory>
    ensures { JudgedIn funs.now checker.old checker.new result (λ c s. judge c s (binary o p (ex_of a.now) (ex_of b.now))) }
{
    let t = type_of(checker, funs, a)?;
    second(checker, funs, b, p, o, t)
}

/// A form with two parts, after its first.
#[cycle(walk)]
#[tactic(auto, using(typing_parts::proofs::Noted::noted_rules))]
fn second(
    checker: &mut Checker,
    funs: &Funs,
    b: &Expr,
    p: Pos,
    o: BinaryForm,
    t: Option<TypeTerm>,
) -> Result<Option<TypeTerm>, NoMemory>
    ensures { JudgedIn funs.now checker.old checker.new result (λ c s. parts2 (earlier funs.now t) (judge c s (ex_of b.now)) (λ u v. own p (row_binary o u v))) }
{
    let u = type_of(checker, funs, b)?;
    let r = checker.close_binary(&funs.types, p, o, t, u)?;
    Ok(r)
}

/// `if`, after its condition and its first arm.
#[cycle(walk)]
#[tactic(auto, using(typing_parts::proofs::Noted::noted_rules))]
fn third(
    checker: &mut Checker,
    funs: &Funs,
    b: &Expr,
    p: Pos,
    t: Option<TypeTerm>,
    u: Option<TypeTerm>,
) -> Result<Option<TypeTerm>, NoMemory>
    ensures { JudgedIn funs.now checker.old checker.new result (λ c s. parts3 (earlier funs.now t) (earlier funs.now u) (judge c s (ex_of b.now)) (λ u v w. own p (row_choose u v w))) }
{
    let v = type_of(checker, funs, b)?;
    let r = checker.close_choose(&funs.types, p, t, u, v)?;
    Ok(r)
}

/// An operand and the links of one operator.
#[cycle(walk)]
#[tactic(auto, using(typing_parts::proofs::Noted::noted_rules))]
fn chain(
    checker: &mut Checker,
    funs: &Funs,
    ks: &Items<Link>,
    o: BinaryForm,
    a: &Expr,
) -> Result<Option<TypeTerm>, NoMemory>
    ensures { JudgedIn funs.now checker.old checker.new result (λ c s. judge c s (chain (ex_of a.now) (links_of o ks.now))) }
{
    let t = type_of(checker, funs, a)?;
    links(checker, funs, ks, o, t)
}

/// The links of one operator, after what stands before them.
#[cycle(walk)]
#[tactic(auto, using(typing_parts::proofs::Noted::noted_rules))]
fn links(
    checker: &mut Checker,
    funs: &Funs,
    ks: &Items<Link>,
    o: BinaryForm,
    t: Option<TypeTerm>,
) -> Result<Option<TypeTerm>, NoMemory>
    ensures { JudgedIn funs.now checker.old checker.new result (λ c s. judge_links c s (earlier funs.now t) (links_of o ks.now)) }
{
    let mut t = t;
    'links: for k in ks.as_slice() {
        t = second(checker, funs, &k.operand, k.pos, o, t)?;
    }
    Ok(t)
}

/// The links of a sum, after what stands before them.
#[cycle(walk)]
#[tactic(auto, using(typing_parts::proofs::Noted::noted_rules))]
fn sum_links(
    checker: &mut Checker,
    funs: &Funs,
    ks: &Items<SumLink>,
    t: Option<TypeTerm>,
) -> Result<Option<TypeTerm>, NoMemory>
    ensures { JudgedIn funs.now checker.old checker.new result (λ c s. judge_links c s (earlier funs.now t) (sum_links_of ks.now)) }
{
    let mut t = t;
    'links: for k in ks.as_slice() {
        t = second(checker, funs, &k.operand, k.pos, sum_form(k.op), t)?;
    }
    Ok(t)
}

/// The links of `:` and `++`, after the operand before them.
#[cycle(walk)]
#[tactic(auto, using(typing_parts::proofs::Noted::noted_rules))]
fn conses(
    checker: &mut Checker,
    funs: &Funs,
    ks: &Items<ListLink>,
    t: Option<TypeTerm>,
) -> Result<Option<TypeTerm>, NoMemory>
    ensures { JudgedIn funs.now checker.old checker.new result (λ c s. after (operand_faults c s (list_links_of ks.now)) (folded (opt_ty funs.now.types.nodes t ∷ operand_types c s (list_links_of ks.now)) (list_links_of ks.now))) }
{
    let ts = operands(checker, funs, ks, t)?;
    let r = checker.close_conses(&funs.types, &ts, ks)?;
    Ok(r)
}

/// The types of all operands of `:` and `++`.
#[cycle(walk)]
#[tactic(auto, using(typing_parts::proofs::Noted::noted_rules))]
fn operands(
    checker: &mut Checker,
    funs: &Funs,
    ks: &Items<ListLink>,
    t: Option<TypeTerm>,
) -> Result<Items<Option<TypeTerm>>, NoMemory>
    ensures { IfOk result (λ ts. Gathered funs.now.types.nodes (ctx_of funs.now) checker.old checker.new (opt_ty funs.now.types.nodes t) (opts_of funs.now.types.nodes ts) (list_links_of ks.now)) }
{
    let mut ts = alone(checker.alloc, t)?;
    'links: for k in ks.as_slice() {
        let u = type_of(checker, funs, &k.operand)?;
        ts.add(u)?;
    }
    Ok(ts)
}

/// A call of a pure function.
#[cycle(walk)]
#[tactic(auto, using(typing_parts::proofs::Noted::noted_rules))]
fn call(
    checker: &mut Checker,
    funs: &Funs,
    es: &Items<Expr>,
    x: &Name,
) -> Result<Option<TypeTerm>, NoMemory>
    ensures { JudgedIn funs.now checker.old checker.new result (λ c s. judge c s (name x.now (exs_of es.now))) }
{
    let us = types_of(checker, funs, es)?;
    let t = checker.close_call(funs, x, es.len(), us)?;
    Ok(t)
}

/// A list of items.
#[cycle(walk)]
#[tactic(auto, using(typing_parts::proofs::Noted::noted_rules))]
fn list(
    checker: &mut Checker,
    funs: &Funs,
    es: &Items<Expr>,
    p: Pos,
) -> Result<Option<TypeTerm>, NoMemory>
    ensures { JudgedIn funs.now checker.old checker.new result (λ c s. judge c s (items p (exs_of es.now))) }
{
    let ts = types_of(checker, funs, es)?;
    let t = checker.close_items(&funs.types, p, ts)?;
    Ok(t)
}

/// The types of expressions, where each has one.
#[cycle(walk)]
#[tactic(auto, using(typing_parts::proofs::Noted::noted_rules))]
pub fn types_of(
    checker: &mut Checker,
    funs: &Funs,
    es: &Items<Expr>,
) -> Result<Option<Items<TypeTerm>>, NoMemory>
    ensures { IfOk result (λ ts. JudgedAll funs.now.types.nodes checker.old checker.new (opt_tys funs.now.types.nodes ts) (judges (ctx_of funs.now) (names funs.now.types.nodes checker.old) (exs_of es.now))) }
{
    let mut ts = Some(Items::new(checker.alloc));
    'parts: for e in es.as_slice() {
        let t = type_of(checker, funs, e)?;
        ts = added(ts, t)?;
    }
    Ok(ts)
}

/// `let`, after the expression that its name stands for.
#[cycle(walk)]
#[tactic(auto, using(typing_parts::proofs::Noted::noted_rules))]
fn given(
    checker: &mut Checker,
    funs: &Funs,
    b: &Expr,
    x: &Name,
    t: Option<TypeTerm>,
) -> Result<Option<TypeTerm>, NoMemory>
    ensures { JudgedIn funs.now checker.old checker.new result (λ c s. part (not_full s (earlier funs.now t)) (λ u. judge c (bound x.now u ∷ s) (ex_of b.now))) }
{
    match checker.begin(&funs.types, x, t)? {
        false => Ok(None),
        true => {
            let body = type_of(checker, funs, b)?;
            checker.unbind(&funs.types);
            Ok(body)
        }
    }
}

/// `case`, after what it looks at.
#[cycle(walk)]
#[tactic(auto, using(typing_parts::proofs::Noted::noted_rules))]
fn case(
    checker: &mut Checker,
    funs: &Funs,
    arms: &ExprArms,
    p: Pos,
    t: Option<TypeTerm>,
) -> Result<Option<TypeTerm>, NoMemory>
    ensures { JudgedIn funs.now checker.old checker.new result (λ c s. part (earlier funs.now t) (λ u. needing p (of (form_of_arms (arms_of arms.now)) u ∷ []) (judge_arms c s p u (arms_of arms.now)))) }
{
    match fitting(checker, &funs.types, p, asked_form(arms), t)? {
        None => Ok(None),
        Some(u) => {
            let r = alternatives(checker, funs, arms, p, &u)?;
            Ok(r)
        }
    }
}

/// The alternatives of a `case`, where what it looks at is of their form.
#[cycle(walk)]
#[tactic(auto, using(typing_parts::proofs::Noted::noted_rules))]
fn alternatives(
    checker: &mut Checker,
    funs: &Funs,
    arms: &ExprArms,
    p: Pos,
    t: &TypeTerm,
) -> Result<Option<TypeTerm>, NoMemory>
    ensures { JudgedIn funs.now checker.old checker.new result (λ c s. judge_arms c s p (type_in funs.now.types.nodes t.now) (arms_of arms.now)) }
{
    match arms {
        ExprArms::OfMaybe(a, x, b) => {
            let u = type_of(checker, funs, a)?;
            let v = under(checker, funs, b, TypePart::Inner.named(x), t)?;
            let r = checker.close_arms(&funs.types, p, u, v)?;
            Ok(r)
        }
        ExprArms::OfEither(x, a, y, b) => {
            let u = under(checker, funs, a, TypePart::First.named(x), t)?;
            let v = under(checker, funs, b, TypePart::Second.named(y), t)?;
            let r = checker.close_arms(&funs.types, p, u, v)?;
            Ok(r)
        }
        ExprArms::OfList(a, x, y, b) => {
            let u = type_of(checker, funs, a)?;
            let v = under_two(
                checker,
                funs,
                b,
                TypePart::Inner.named(x),
                TypePart::Whole.named(y),
                t,
            )?;
            let r = checker.close_arms(&funs.types, p, u, v)?;
            Ok(r)
        }
        ExprArms::OfPair(x, y, a) => {
            let r = under_two(
                checker,
                funs,
                a,
                TypePart::First.named(x),
                TypePart::Second.named(y),
                t,
            )?;
            Ok(r)
        }
    }
}

/// An expression under one more name, which is bound to a part of a type.
#[cycle(walk)]
#[tactic(auto, using(typing_parts::proofs::Noted::noted_rules))]
fn under(
    checker: &mut Checker,
    funs: &Funs,
    e: &Expr,
    x: NamedPart,
    t: &TypeTerm,
) -> Result<Option<TypeTerm>, NoMemory>
    ensures { JudgedIn funs.now checker.old checker.new result (λ c s. under_part (type_in funs.now.types.nodes t.now) x.entry s (λ u. judge c u (ex_of e.now))) }
{
    match enter(checker, &funs.types, x, t)? {
        false => Ok(None),
        true => {
            let u = type_of(checker, funs, e)?;
            checker.unbind(&funs.types);
            Ok(u)
        }
    }
}

/// An expression under two more names.
#[cycle(walk)]
#[tactic(auto, using(typing_parts::proofs::Noted::noted_rules))]
fn under_two(
    checker: &mut Checker,
    funs: &Funs,
    e: &Expr,
    x: NamedPart,
    y: NamedPart,
    t: &TypeTerm,
) -> Result<Option<TypeTerm>, NoMemory>
    ensures { JudgedIn funs.now checker.old checker.new result (λ c s. under_part (type_in funs.now.types.nodes t.now) x.entry s (λ u. under_part (type_in funs.now.types.nodes t.now) y.entry u (λ v. judge c v (ex_of e.now)))) }
{
    match enter(checker, &funs.types, x, t)? {
        false => Ok(None),
        true => {
            let u = under(checker, funs, e, y, t)?;
            checker.unbind(&funs.types);
            Ok(u)
        }
    }
}
