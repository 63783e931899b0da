//! Expressions: a function for each form, in which its fixed pieces stand, and the walk down a tree.
ghost use Rattle.std.specs.Prelude.{◌≡◌, ◌++◌, OnOk, codes, string_bytes};
ghost use Rattle.rules_expansion.specs.trees.Trees.{ex_of, exs_of, arms_of, links_of, sum_links_of, list_links_of, wr_of};
ghost use Rattle.haskell_module.specs.Names.{name_text};
ghost use Rattle.haskell_module.specs.Types.{type_text};
ghost use Rattle.haskell_module.specs.Forms.{applied, applied_two, chained, bound, bound_two, choice, case_of, arms_of_maybe, arms_of_either, arms_of_list, arms_of_pair};
ghost use Rattle.haskell_module.specs.Expressions.{side_text, items_text, ex_text, called, arguments, listed, links_text, arms_text};

use crate::names::write_name;
use crate::pieces::{
    compare_operator, constant_word, list_operator, operator, put, side_word, sum_operator,
    unary_word, write_arm, write_empty, write_lambda, write_number, write_text,
};
use crate::types::write_type;
use hs_base::tree::forms::{BinaryForm, SideForm};
use hs_base::tree::{Expr, ExprArms, Link, ListLink, Name, SumLink, Written};
use hs_items::Items;
use std::alloc::AllocError;

/// An expression.
#[cycle(exprs)]
#[tactic(auto, using(rules_expansion::proofs::trees_lemmas::Equations::ex_rules))]
pub(crate) fn write_expr(text: &mut String, e: &Expr) -> Result<(), AllocError>
    ensures { OnOk result (string_bytes text.new ≡ string_bytes text.old ++ ex_text (ex_of e.now)) }
{
    match e {
        Expr::Int(_, number) => write_number(text, *number),
        Expr::Text(_, content) => write_text(text, content),
        Expr::Constant(_, constant) => put(text, constant_word(*constant)),
        Expr::Unit(_) => put(text, "()"),
        Expr::Empty(form, _, ty) => write_empty(text, *form, ty),
        Expr::Unary(form, _, a) => write_applied(text, unary_word(*form), a.get()),
        Expr::Side(form, _, s, t, a) => write_side(text, *form, s, t, a.get()),
        Expr::Compare(a, op, _, b) => { write_infix(text, a.get(), compare_operator(*op), b.get()) }
        Expr::Div(_, a, b) => write_applied_two(text, "div", a.get(), b.get()),
        Expr::Mod(_, a, b) => write_applied_two(text, "mod", a.get(), b.get()),
        Expr::Pair(_, a, b) => write_applied_two(text, "pair", a.get(), b.get()),
        Expr::If(_, c, a, b) => write_choice(text, c.get(), a.get(), b.get()),
        Expr::Let(_, x, a, b) => write_given(text, x, a.get(), b.get()),
        Expr::Or(a, ks) => write_chain(text, ks, BinaryForm::Or, a.get()),
        Expr::And(a, ks) => write_chain(text, ks, BinaryForm::And, a.get()),
        Expr::Product(a, ks) => write_chain(text, ks, BinaryForm::Times, a.get()),
        Expr::Sum(a, ks) => write_sum(text, ks, a.get()),
        Expr::Cons(a, ks) => write_conses(text, ks, a.get()),
        Expr::Call(f, es) => write_call(text, f, es),
        Expr::List(_, es) => write_items(text, es),
        Expr::Case(_, a, arms) => write_case(text, arms.get(), a.get()),
    }
}

/// A piece, and an expression behind it.
#[cycle(exprs)]
pub(crate) fn write_part(text: &mut String, before: &str, e: &Expr) -> Result<(), AllocError>
    ensures { OnOk result (string_bytes text.new ≡ string_bytes text.old ++ (before.now ++ ex_text (ex_of e.now))) }
{
    put(text, before)?;
    write_expr(text, e)
}

#[cycle(exprs)]
#[tactic(auto, unfolding(crate::specs::Forms::applied))]
pub(crate) fn write_applied(text: &mut String, word: &str, a: &Expr) -> Result<(), AllocError>
    ensures { OnOk result (string_bytes text.new ≡ string_bytes text.old ++ applied word.now (ex_text (ex_of a.now))) }
{
    put(text, "(")?;
    put(text, word)?;
    write_part(text, " ", a)?;
    put(text, ")")
}

#[cycle(exprs)]
#[tactic(auto, unfolding(crate::specs::Forms::applied_two))]
pub(crate) fn write_applied_two(
    text: &mut String,
    word: &str,
    a: &Expr,
    b: &Expr,
) -> Result<(), AllocError>
    ensures { OnOk result (string_bytes text.new ≡ string_bytes text.old ++ applied_two word.now (ex_text (ex_of a.now)) (ex_text (ex_of b.now))) }
{
    put(text, "(")?;
    put(text, word)?;
    write_part(text, " ", a)?;
    write_part(text, " ", b)?;
    put(text, ")")
}

/// Two operands and the operator between them.
#[cycle(exprs)]
#[tactic(auto, unfolding(crate::specs::Forms::chained))]
fn write_infix(text: &mut String, a: &Expr, operator: &str, b: &Expr) -> Result<(), AllocError>
    ensures { OnOk result (string_bytes text.new ≡ string_bytes text.old ++ chained (ex_text (ex_of a.now)) (operator.now ++ ex_text (ex_of b.now))) }
{
    write_part(text, "(", a)?;
    write_part(text, operator, b)?;
    put(text, ")")
}

#[cycle(exprs)]
#[tactic(auto, unfolding(crate::specs::Expressions::side_text, crate::specs::Forms::typed))]
fn write_side(
    text: &mut String,
    form: SideForm,
    s: &Written,
    t: &Written,
    a: &Expr,
) -> Result<(), AllocError>
    ensures { OnOk result (string_bytes text.new ≡ string_bytes text.old ++ side_text form (type_text (wr_of s.now).ty) (type_text (wr_of t.now).ty) (ex_text (ex_of a.now))) }
{
    put(text, "(")?;
    put(text, side_word(form))?;
    write_part(text, " ", a)?;
    put(text, " :: Either ")?;
    write_type(text, &s.ty)?;
    put(text, " ")?;
    write_type(text, &t.ty)?;
    put(text, ")")
}

#[cycle(exprs)]
#[tactic(auto, unfolding(crate::specs::Forms::choice))]
fn write_choice(text: &mut String, c: &Expr, a: &Expr, b: &Expr) -> Result<(), AllocError>
    ensures { OnOk result (string_bytes text.new ≡ string_bytes text.old ++ choice (ex_text (ex_of c.now)) (ex_text (ex_of a.now)) (ex_text (ex_of b.now))) }
{
    write_part(text, "(if ", c)?;
    write_part(text, " then ", a)?;
    write_part(text, " else ", b)?;
    put(text, ")")
}

#[cycle(exprs)]
#[tactic(auto, unfolding(crate::specs::Forms::bound))]
fn write_bound(text: &mut String, x: &Name, b: &Expr) -> Result<(), AllocError>
    ensures { OnOk result (string_bytes text.new ≡ string_bytes text.old ++ bound x.now.text (ex_text (ex_of b.now))) }
{
    put(text, "(")?;
    write_lambda(text, &x.text)?;
    write_expr(text, b)?;
    put(text, ")")
}

#[cycle(exprs)]
#[tactic(auto, unfolding(crate::specs::Forms::bound_two))]
fn write_bound_two(text: &mut String, x: &Name, y: &Name, b: &Expr) -> Result<(), AllocError>
    ensures { OnOk result (string_bytes text.new ≡ string_bytes text.old ++ bound_two x.now.text y.now.text (ex_text (ex_of b.now))) }
{
    put(text, "(")?;
    write_lambda(text, &x.text)?;
    write_lambda(text, &y.text)?;
    write_expr(text, b)?;
    put(text, ")")
}

/// `let x = a in b`
#[cycle(exprs)]
#[tactic(auto, unfolding(crate::specs::Forms::applied_two))]
fn write_given(text: &mut String, x: &Name, a: &Expr, b: &Expr) -> Result<(), AllocError>
    ensures { OnOk result (string_bytes text.new ≡ string_bytes text.old ++ applied_two (codes "strict") (bound x.now.text (ex_text (ex_of b.now))) (ex_text (ex_of a.now))) }
{
    put(text, "(strict ")?;
    write_bound(text, x, b)?;
    write_part(text, " ", a)?;
    put(text, ")")
}

/// A name alone, or a call.
#[cycle(exprs)]
fn write_call(text: &mut String, f: &Name, es: &Items<Expr>) -> Result<(), AllocError>
    ensures { OnOk result (string_bytes text.new ≡ string_bytes text.old ++ called (name_text f.now.text) (exs_of es.now) (arguments (exs_of es.now))) }
{
    if es.is_empty() {
        return write_name(text, &f.text);
    }
    write_some_call(text, es, f)
}

/// A call with arguments.
#[cycle(exprs)]
fn write_some_call(text: &mut String, es: &Items<Expr>, f: &Name) -> Result<(), AllocError>
    ensures { OnOk result (string_bytes text.new ≡ string_bytes text.old ++ (codes "(" ++ name_text f.now.text ++ arguments (exs_of es.now) ++ codes ")")) }
{
    put(text, "(")?;
    write_name(text, &f.text)?;
    write_arguments(text, es)?;
    put(text, ")")
}

/// Each behind a blank.
#[cycle(exprs)]
pub(crate) fn write_arguments(text: &mut String, es: &Items<Expr>) -> Result<(), AllocError>
    ensures { OnOk result (string_bytes text.new ≡ string_bytes text.old ++ arguments (exs_of es.now)) }
{
    'parts: for e in es.as_slice() {
        write_part(text, " ", e)?;
    }
    Ok(())
}

/// The first as it is, and each other behind a comma.
#[cycle(exprs)]
fn write_listed(text: &mut String, es: &Items<Expr>) -> Result<(), AllocError>
    ensures { OnOk result (string_bytes text.new ≡ string_bytes text.old ++ listed (codes "") (exs_of es.now)) }
{
    let mut before = "";
    'parts: for e in es.as_slice() {
        write_part(text, before, e)?;
        before = ", ";
    }
    Ok(())
}

#[cycle(exprs)]
#[tactic(auto, unfolding(crate::specs::Expressions::items_text))]
fn write_items(text: &mut String, es: &Items<Expr>) -> Result<(), AllocError>
    ensures { OnOk result (string_bytes text.new ≡ string_bytes text.old ++ items_text (listed (codes "") (exs_of es.now))) }
{
    put(text, "(list [")?;
    write_listed(text, es)?;
    put(text, "])")
}

#[cycle(exprs)]
#[tactic(auto, unfolding(crate::specs::Forms::chained))]
fn write_chain(
    text: &mut String,
    ks: &Items<Link>,
    form: BinaryForm,
    a: &Expr,
) -> Result<(), AllocError>
    ensures { OnOk result (string_bytes text.new ≡ string_bytes text.old ++ chained (ex_text (ex_of a.now)) (links_text (links_of form ks.now))) }
{
    write_part(text, "(", a)?;
    write_links(text, form, ks)?;
    put(text, ")")
}

#[cycle(exprs)]
fn write_links(text: &mut String, form: BinaryForm, ks: &Items<Link>) -> Result<(), AllocError>
    ensures { OnOk result (string_bytes text.new ≡ string_bytes text.old ++ links_text (links_of form ks.now)) }
{
    'links: for k in ks.as_slice() {
        write_part(text, operator(form), &k.operand)?;
    }
    Ok(())
}

#[cycle(exprs)]
#[tactic(auto, unfolding(crate::specs::Forms::chained))]
fn write_sum(text: &mut String, ks: &Items<SumLink>, a: &Expr) -> Result<(), AllocError>
    ensures { OnOk result (string_bytes text.new ≡ string_bytes text.old ++ chained (ex_text (ex_of a.now)) (links_text (sum_links_of ks.now))) }
{
    write_part(text, "(", a)?;
    write_sum_links(text, ks)?;
    put(text, ")")
}

#[cycle(exprs)]
fn write_sum_links(text: &mut String, ks: &Items<SumLink>) -> Result<(), AllocError>
    ensures { OnOk result (string_bytes text.new ≡ string_bytes text.old ++ links_text (sum_links_of ks.now)) }
{
    'links: for k in ks.as_slice() {
        write_part(text, sum_operator(k.op), &k.operand)?;
    }
    Ok(())
}

#[cycle(exprs)]
#[tactic(auto, unfolding(crate::specs::Forms::chained))]
fn write_conses(text: &mut String, ks: &Items<ListLink>, a: &Expr) -> Result<(), AllocError>
    ensures { OnOk result (string_bytes text.new ≡ string_bytes text.old ++ chained (ex_text (ex_of a.now)) (links_text (list_links_of ks.now))) }
{
    write_part(text, "(", a)?;
    write_list_links(text, ks)?;
    put(text, ")")
}

#[cycle(exprs)]
fn write_list_links(text: &mut String, ks: &Items<ListLink>) -> Result<(), AllocError>
    ensures { OnOk result (string_bytes text.new ≡ string_bytes text.old ++ links_text (list_links_of ks.now)) }
{
    'links: for k in ks.as_slice() {
        write_part(text, list_operator(k.op), &k.operand)?;
    }
    Ok(())
}

#[cycle(exprs)]
#[tactic(auto, unfolding(crate::specs::Forms::case_of))]
fn write_case(text: &mut String, arms: &ExprArms, a: &Expr) -> Result<(), AllocError>
    ensures { OnOk result (string_bytes text.new ≡ string_bytes text.old ++ case_of (ex_text (ex_of a.now)) (arms_text (arms_of arms.now))) }
{
    write_part(text, "(case ", a)?;
    put(text, " of {")?;
    write_arms(text, arms)?;
    put(text, "})")
}

#[cycle(exprs)]
#[tactic(auto, using(rules_expansion::proofs::trees_lemmas::Equations::arms_rules))]
fn write_arms(text: &mut String, arms: &ExprArms) -> Result<(), AllocError>
    ensures { OnOk result (string_bytes text.new ≡ string_bytes text.old ++ arms_text (arms_of arms.now)) }
{
    match arms {
        ExprArms::OfMaybe(a, x, b) => write_maybe_arms(text, a, x, b),
        ExprArms::OfEither(x, a, y, b) => write_either_arms(text, x, a, y, b),
        ExprArms::OfList(a, x, y, b) => write_list_arms(text, a, x, y, b),
        ExprArms::OfPair(x, y, a) => write_pair_arm(text, x, y, a),
    }
}

#[cycle(exprs)]
#[tactic(auto, unfolding(crate::specs::Forms::arms_of_maybe))]
fn write_maybe_arms(text: &mut String, a: &Expr, x: &Name, b: &Expr) -> Result<(), AllocError>
    ensures { OnOk result (string_bytes text.new ≡ string_bytes text.old ++ arms_of_maybe (ex_text (ex_of a.now)) x.now.text (ex_text (ex_of b.now))) }
{
    write_part(text, "Nothing -> ", a)?;
    write_arm(text, "; Just ", &x.text)?;
    write_expr(text, b)
}

#[cycle(exprs)]
#[tactic(auto, unfolding(crate::specs::Forms::arms_of_either))]
fn write_either_arms(
    text: &mut String,
    x: &Name,
    a: &Expr,
    y: &Name,
    b: &Expr,
) -> Result<(), AllocError>
    ensures { OnOk result (string_bytes text.new ≡ string_bytes text.old ++ arms_of_either x.now.text (ex_text (ex_of a.now)) y.now.text (ex_text (ex_of b.now))) }
{
    write_arm(text, "Left ", &x.text)?;
    write_expr(text, a)?;
    write_arm(text, "; Right ", &y.text)?;
    write_expr(text, b)
}

#[cycle(exprs)]
#[tactic(auto, unfolding(crate::specs::Forms::arms_of_list))]
fn write_list_arms(
    text: &mut String,
    a: &Expr,
    x: &Name,
    y: &Name,
    b: &Expr,
) -> Result<(), AllocError>
    ensures { OnOk result (string_bytes text.new ≡ string_bytes text.old ++ arms_of_list (ex_text (ex_of a.now)) x.now.text y.now.text (ex_text (ex_of b.now))) }
{
    write_part(text, "[] -> ", a)?;
    put(text, "; a : b -> ")?;
    write_bound_two(text, x, y, b)?;
    put(text, " a b")
}

#[cycle(exprs)]
#[tactic(auto, unfolding(crate::specs::Forms::arms_of_pair))]
fn write_pair_arm(text: &mut String, x: &Name, y: &Name, a: &Expr) -> Result<(), AllocError>
    ensures { OnOk result (string_bytes text.new ≡ string_bytes text.old ++ arms_of_pair x.now.text y.now.text (ex_text (ex_of a.now))) }
{
    put(text, "(a, b) -> ")?;
    write_bound_two(text, x, y, a)?;
    put(text, " a b")
}
