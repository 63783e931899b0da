//! What a form gives at the values of its parts.
ghost use Rattle.std.specs.Prelude.{◌≡◌, ◌++◌, IfOk, codes, decimal};
ghost use Rattle.rules_meaning.specs.Values.{value_of};
ghost use Rattle.rules_meaning.specs.Meaning.{unary_of, side_of, shown, as_text, limited, truth_text};
ghost use Rattle.std.specs.Fmt.{signed_decimal};
ghost use Rattle.hs_eval.specs.Founds.{out_of};

use crate::found::Found;
use crate::numbers::negated;
use hs_base::tree::forms::{SideForm, UnaryForm};
use hs_base::{Exn, NoMemory, Txt, Value};
use hs_items::Shared;
use std::alloc::Global;

/// A part of a value, which copies share.
pub fn shared(alloc: Global, value: Value) -> Result<Shared<Value>, NoMemory>
    ensures { IfOk result (λ part. part ≡ value) }
{
    Ok(Shared::new(alloc, value)?)
}

/// `ErrorCall a`
#[tactic(auto, using(crate::proofs::Cases::no_form, crate::proofs::Cases::value_forms))]
fn error_call(value: Value) -> Found
    ensures { out_of result ≡ unary_of UnaryForm.ErrorCall (value_of value) }
{
    match value.into_text() {
        Some(text) => Found::Value(Value::Exn(Exn::ErrorCall(text))),
        None => Found::Stuck,
    }
}

/// `not a`
#[tactic(auto, using(crate::proofs::Cases::no_form, crate::proofs::Cases::value_forms))]
fn not(value: Value) -> Found
    ensures { out_of result ≡ unary_of UnaryForm.Not (value_of value) }
{
    match &value {
        Value::Bool(truth) => Found::Value(Value::Bool(!*truth)),
        _ => Found::Stuck,
    }
}

/// `fst a`
#[tactic(auto, using(crate::proofs::Cases::no_form, crate::proofs::Cases::value_forms))]
fn first(alloc: Global, value: &Value) -> Result<Found, NoMemory>
    ensures { IfOk result (λ o. out_of o ≡ unary_of UnaryForm.Fst (value_of value.now)) }
{
    match value {
        Value::Pair(a, _) => Ok(Found::Value(a.get().copy(alloc)?)),
        _ => Ok(Found::Stuck),
    }
}

/// `snd a`
#[tactic(auto, using(crate::proofs::Cases::no_form, crate::proofs::Cases::value_forms))]
fn second(alloc: Global, value: &Value) -> Result<Found, NoMemory>
    ensures { IfOk result (λ o. out_of o ≡ unary_of UnaryForm.Snd (value_of value.now)) }
{
    match value {
        Value::Pair(_, b) => Ok(Found::Value(b.get().copy(alloc)?)),
        _ => Ok(Found::Stuck),
    }
}

/// `-a`
#[tactic(auto, using(crate::proofs::Cases::no_form, crate::proofs::Cases::value_forms))]
fn negative(value: Value) -> Found
    ensures { out_of result ≡ unary_of UnaryForm.Negate (value_of value) }
{
    match &value {
        Value::Int(n) => Found::Value(Value::Int(negated(*n))),
        _ => Found::Stuck,
    }
}

/// The text of a number.
fn number_text(alloc: Global, n: i64) -> Result<Txt, NoMemory>
    ensures { IfOk result (λ t. t ≡ signed_decimal n) }
{
    let text = format!(in alloc; "{n}")?;
    Txt::of(alloc, text.as_str())
}

/// The text of a thread.
fn thread_text(alloc: Global, n: u32) -> Result<Txt, NoMemory>
    ensures { IfOk result (λ t. t ≡ codes "ThreadId " ++ decimal n) }
{
    let text = format!(in alloc; "ThreadId {n}")?;
    Txt::of(alloc, text.as_str())
}

/// The text of a truth.
fn truth_text(alloc: Global, truth: bool) -> Result<Txt, NoMemory>
    ensures { IfOk result (λ t. t ≡ truth_text truth) }
{
    if truth {
        Txt::of(alloc, "True")
    } else {
        Txt::of(alloc, "False")
    }
}

/// `show a`
#[tactic(auto, using(crate::proofs::Comparisons::not_shown, crate::proofs::Cases::value_forms))]
fn shown(alloc: Global, value: &Value) -> Result<Found, NoMemory>
    ensures { IfOk result (λ o. out_of o ≡ as_text (shown (value_of value.now))) }
{
    match value {
        Value::Int(n) => Ok(Found::Value(Value::Text(number_text(alloc, *n)?))),
        Value::Bool(t) => Ok(Found::Value(Value::Text(truth_text(alloc, *t)?))),
        Value::Thread(n) => Ok(Found::Value(Value::Text(thread_text(alloc, *n)?))),
        Value::Exn(e) => Ok(Found::Value(Value::Text(e.text(alloc)?))),
        _ => Ok(Found::Stuck),
    }
}

/// A form with one part.
#[tactic(auto, using(crate::proofs::Cases::value_forms))]
pub fn unary(alloc: Global, form: UnaryForm, value: Value) -> Result<Found, NoMemory>
    ensures { IfOk result (λ o. out_of o ≡ unary_of form (value_of value)) }
{
    match form {
        UnaryForm::Just => Ok(Found::Value(Value::Just(shared(alloc, value)?))),
        UnaryForm::ErrorCall => Ok(error_call(value)),
        UnaryForm::Not => Ok(not(value)),
        UnaryForm::Fst => first(alloc, &value),
        UnaryForm::Snd => second(alloc, &value),
        UnaryForm::Show => shown(alloc, &value),
        UnaryForm::Negate => Ok(negative(value)),
    }
}

/// `Left a` or `Right a`
#[tactic(auto, using(crate::proofs::Cases::value_forms))]
pub fn side(alloc: Global, form: SideForm, value: Value) -> Result<Value, NoMemory>
    ensures { IfOk result (λ v. value_of v ≡ side_of form (value_of value)) }
{
    match form {
        SideForm::Left => Ok(Value::Left(shared(alloc, value)?)),
        SideForm::Right => Ok(Value::Right(shared(alloc, value)?)),
    }
}

/// A text, where it is within the limit.
pub fn limited(text: Txt) -> Found
    ensures { out_of result ≡ limited text }
{
    if text.as_str().len() > 65_536 {
        Found::Throws(Exn::TextLimit)
    } else {
        Found::Value(Value::Text(text))
    }
}
