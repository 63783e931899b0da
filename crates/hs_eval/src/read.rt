//! What a value is, seen from outside.
ghost use Rattle.std.specs.Prelude.{◌≡◌, ℕ, ℤ, List, Bool, MatchOption};
ghost use Rattle.rules_meaning.specs.Values.{value_of, Int, Truth, Text, Stuck, Outcome};
ghost use Rattle.rules_meaning.specs.Meaning.{on_truth, on_number, on_text};

use hs_base::{Txt, Value};

/// A truth.
#[tactic(auto, using(crate::proofs::Cases::no_form, crate::proofs::Cases::value_forms))]
pub fn as_truth(value: &Value) -> Option<bool>
    ensures { MatchOption result ((f : Bool → Outcome) → on_truth f (value_of value.now) ≡ Stuck) (λ t. value_of value.now ≡ Truth t) }
{
    match value {
        Value::Bool(t) => Some(*t),
        _ => None,
    }
}

/// A number.
#[tactic(auto, using(crate::proofs::Cases::no_form, crate::proofs::Cases::value_forms))]
pub fn as_number(value: &Value) -> Option<i64>
    ensures { MatchOption result ((f : ℤ → Outcome) → on_number f (value_of value.now) ≡ Stuck) (λ m. value_of value.now ≡ Int m) }
{
    match value {
        Value::Int(m) => Some(*m),
        _ => None,
    }
}

/// A text.
#[tactic(auto, using(crate::proofs::Cases::no_form, crate::proofs::Cases::value_forms))]
pub fn as_text(value: &Value) -> Option<&Txt>
    ensures { MatchOption result ((f : List ℕ → Outcome) → on_text f (value_of value.now) ≡ Stuck) (λ t. value_of value.now ≡ Text t.now) }
{
    match value {
        Value::Text(t) => Some(t),
        _ => None,
    }
}
