//! Forms with two parts.
ghost use Rattle.std.specs.Prelude.{◌≡◌, ◌++◌, ℤ, IfOk, MatchOption};
ghost use Rattle.rules_meaning.specs.Values.{value_of, Int, Stuck, Outcome, Gives, Pair};
ghost use Rattle.rules_meaning.specs.Meaning.{binary_of, on_numbers, as_truth, isnt, is_before, is_behind, put_before, joined_texts, limited};
ghost use Rattle.hs_eval.specs.Founds.{out_of};

use crate::compare::{order_of, same_value};
use crate::forms::{limited, shared};
use crate::found::Found;
use crate::numbers::{minus, plus, quotient, remainder, times};
use crate::read::{as_number, as_text};
use hs_base::tree::forms::BinaryForm;
use hs_base::{NoMemory, Txt, Value, ValueList};
use std::alloc::Global;
use std::cmp::Ordering;

/// Two numbers.
fn numbers(a: &Value, b: &Value) -> Option<(i64, i64)>
    ensures { MatchOption result ((f : ℤ → ℤ → Outcome) → on_numbers f (value_of a.now) (value_of b.now) ≡ Stuck) (λ p. (value_of a.now ≡ Int p.0) × (value_of b.now ≡ Int p.1)) }
{
    match as_number(a) {
        None => None,
        Some(m) => match as_number(b) {
            None => None,
            Some(n) => Some((m, n)),
        },
    }
}

/// `div a b`
fn quotient_of(a: &Value, b: &Value) -> Found
    ensures { out_of result ≡ binary_of BinaryForm.Div (value_of a.now) (value_of b.now) }
{
    match numbers(a, b) {
        None => Found::Stuck,
        Some((m, n)) => quotient(m, n),
    }
}

/// `mod a b`
fn remainder_of(a: &Value, b: &Value) -> Found
    ensures { out_of result ≡ binary_of BinaryForm.Mod (value_of a.now) (value_of b.now) }
{
    match numbers(a, b) {
        None => Found::Stuck,
        Some((m, n)) => remainder(m, n),
    }
}

/// `a + b`
#[tactic(auto, using(crate::proofs::Cases::value_forms))]
fn sum_of(a: &Value, b: &Value) -> Found
    ensures { out_of result ≡ binary_of BinaryForm.Plus (value_of a.now) (value_of b.now) }
{
    match numbers(a, b) {
        None => Found::Stuck,
        Some((m, n)) => Found::Value(Value::Int(plus(m, n))),
    }
}

/// `a - b`
#[tactic(auto, using(crate::proofs::Cases::value_forms))]
fn difference_of(a: &Value, b: &Value) -> Found
    ensures { out_of result ≡ binary_of BinaryForm.Minus (value_of a.now) (value_of b.now) }
{
    match numbers(a, b) {
        None => Found::Stuck,
        Some((m, n)) => Found::Value(Value::Int(minus(m, n))),
    }
}

/// `a * b`
#[tactic(auto, using(crate::proofs::Cases::value_forms))]
fn product_of(a: &Value, b: &Value) -> Found
    ensures { out_of result ≡ binary_of BinaryForm.Times (value_of a.now) (value_of b.now) }
{
    match numbers(a, b) {
        None => Found::Stuck,
        Some((m, n)) => Found::Value(Value::Int(times(m, n))),
    }
}

/// The value of a test.
#[tactic(auto, using(crate::proofs::Cases::value_forms))]
fn truth(test: Option<bool>) -> Found
    ensures { out_of result ≡ as_truth test }
{
    match test {
        None => Found::Stuck,
        Some(t) => Found::Value(Value::Bool(t)),
    }
}

fn isnt(test: Option<bool>) -> Option<bool>
    ensures { result ≡ isnt test }
{
    match test {
        None => None,
        Some(t) => Some(!t),
    }
}

fn is_before(order: Option<Ordering>) -> Option<bool>
    ensures { result ≡ is_before order }
{
    match order {
        None => None,
        Some(o) => Some(o.is_lt()),
    }
}

fn is_behind(order: Option<Ordering>) -> Option<bool>
    ensures { result ≡ is_behind order }
{
    match order {
        None => None,
        Some(o) => Some(o.is_gt()),
    }
}

/// `(a, b)`
#[tactic(auto, using(crate::proofs::Cases::value_forms))]
fn pair_of(alloc: Global, a: Value, b: Value) -> Result<Found, NoMemory>
    ensures { IfOk result (λ o. out_of o ≡ Gives (Pair (value_of a) (value_of b))) }
{
    Ok(Found::Value(Value::Pair(shared(alloc, a)?, shared(alloc, b)?)))
}

/// `a : b`
#[tactic(auto, using(crate::proofs::Cases::value_forms, crate::proofs::Cases::no_form, crate::proofs::Steps::put_before_list))]
fn put_before(alloc: Global, a: Value, b: Value) -> Result<Found, NoMemory>
    ensures { IfOk result (λ o. out_of o ≡ put_before (value_of a) (value_of b)) }
{
    match b.into_list() {
        Some(items) => {
            let list = ValueList::cons(alloc, a, items)?;
            Ok(Found::Value(Value::List(list)))
        }
        None => Ok(Found::Stuck),
    }
}

/// `s ++ t`, where it is within the limit.
fn joined(alloc: Global, s: &Txt, t: &Txt) -> Result<Found, NoMemory>
    ensures { IfOk result (λ o. out_of o ≡ limited (s.now ++ t.now)) }
{
    let mut text = String::from_str(alloc, s.as_str())?;
    text.push_str(t.as_str())?;
    Ok(limited(Txt::of(alloc, text.as_str())?))
}

/// `a ++ b`
fn joined_texts(alloc: Global, a: &Value, b: &Value) -> Result<Found, NoMemory>
    ensures { IfOk result (λ o. out_of o ≡ joined_texts (value_of a.now) (value_of b.now)) }
{
    match as_text(a) {
        None => Ok(Found::Stuck),
        Some(s) => match as_text(b) {
            None => Ok(Found::Stuck),
            Some(t) => joined(alloc, s, t),
        },
    }
}

/// A form with two parts, at values that stay.
fn at_lent(alloc: Global, form: BinaryForm, a: &Value, b: &Value) -> Result<Found, NoMemory>
    ensures { IfOk result (λ o. out_of o ≡ binary_of form (value_of a.now) (value_of b.now)) }
{
    match form {
        BinaryForm::Pair => pair_of(alloc, a.copy(alloc)?, b.copy(alloc)?),
        BinaryForm::Div => Ok(quotient_of(a, b)),
        BinaryForm::Mod => Ok(remainder_of(a, b)),
        BinaryForm::Equal => Ok(truth(same_value(a, b))),
        BinaryForm::Unequal => Ok(truth(isnt(same_value(a, b)))),
        BinaryForm::Less => Ok(truth(is_before(order_of(a, b)))),
        BinaryForm::AtMost => Ok(truth(isnt(is_behind(order_of(a, b))))),
        BinaryForm::Greater => Ok(truth(is_behind(order_of(a, b)))),
        BinaryForm::AtLeast => Ok(truth(isnt(is_before(order_of(a, b))))),
        BinaryForm::Plus => Ok(sum_of(a, b)),
        BinaryForm::Minus => Ok(difference_of(a, b)),
        BinaryForm::Times => Ok(product_of(a, b)),
        BinaryForm::Cons => put_before(alloc, a.copy(alloc)?, b.copy(alloc)?),
        BinaryForm::Append => joined_texts(alloc, a, b),
        BinaryForm::Or => Ok(Found::Stuck),
        BinaryForm::And => Ok(Found::Stuck),
    }
}

/// A form with two parts, at their values. A pair and a list keep them.
pub fn binary(alloc: Global, form: BinaryForm, a: Value, b: Value) -> Result<Found, NoMemory>
    ensures { IfOk result (λ o. out_of o ≡ binary_of form (value_of a) (value_of b)) }
{
    match form {
        BinaryForm::Pair => pair_of(alloc, a, b),
        BinaryForm::Cons => put_before(alloc, a, b),
        _ => at_lent(alloc, form, &a, &b),
    }
}
