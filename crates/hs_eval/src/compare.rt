//! Comparisons.
ghost use Rattle.std.specs.Prelude.{◌≡◌};
ghost use Rattle.rules_meaning.specs.Values.{value_of};
ghost use Rattle.rules_meaning.specs.Meaning.{same_value, order_of, same_exn};

use hs_base::{Exn, Value};
use std::cmp::Ordering;

/// Whether two exceptions are equal.
fn same_exn(a: &Exn, b: &Exn) -> bool
    ensures { result ≡ same_exn a.now b.now }
{
    match (a, b) {
        (Exn::ErrorCall(s), Exn::ErrorCall(t)) => s.as_str() == t.as_str(),
        (Exn::ThreadKilled, Exn::ThreadKilled) => true,
        (Exn::UserInterrupt, Exn::UserInterrupt) => true,
        (Exn::DivideByZero, Exn::DivideByZero) => true,
        (Exn::Overflow, Exn::Overflow) => true,
        (Exn::Timeout(m), Exn::Timeout(n)) => m == n,
        (Exn::TextLimit, Exn::TextLimit) => true,
        (Exn::BlockedIndefinitely, Exn::BlockedIndefinitely) => true,
        (_, _) => false,
    }
}

/// Whether two values are equal, of the types that have it.
#[tactic(auto, using(crate::proofs::Cases::value_forms, crate::proofs::Comparisons::not_same_rules))]
pub fn same_value(a: &Value, b: &Value) -> Option<bool>
    ensures { result ≡ same_value (value_of a.now) (value_of b.now) }
{
    match a {
        Value::Int(m) => match b {
            Value::Int(n) => Some(m == n),
            _ => None,
        },
        Value::Bool(s) => match b {
            Value::Bool(t) => Some(s == t),
            _ => None,
        },
        Value::Text(s) => match b {
            Value::Text(t) => Some(s.as_str() == t.as_str()),
            _ => None,
        },
        Value::Thread(m) => match b {
            Value::Thread(n) => Some(m == n),
            _ => None,
        },
        Value::Exn(e) => match b {
            Value::Exn(f) => Some(same_exn(e, f)),
            _ => None,
        },
        _ => None,
    }
}

/// The order of two values, of the types that have it.
#[tactic(auto, using(crate::proofs::Cases::value_forms, crate::proofs::Comparisons::no_order_rules))]
pub fn order_of(a: &Value, b: &Value) -> Option<Ordering>
    ensures { result ≡ order_of (value_of a.now) (value_of b.now) }
{
    match a {
        Value::Int(m) => match b {
            Value::Int(n) => Some(m.cmp(n)),
            _ => None,
        },
        Value::Text(s) => match b {
            Value::Text(t) => Some(s.as_str().cmp(&t.as_str())),
            _ => None,
        },
        _ => None,
    }
}
