//! Numbers of 64 bits, with a sign.
ghost use Rattle.std.specs.Prelude.{◌≡◌, pos, ◌≢◌, false};
ghost use Rattle.rules_meaning.specs.Meaning.{floor_quotient, floor_rest, has_no_quotient, quotient, remainder, plus, minus, times, negated};
ghost use Rattle.hs_eval.specs.Founds.{out_of};

use crate::found::Found;
use hs_base::{Exn, Value};

/// Rounded toward minus infinity.
fn floor_quotient(a: i64, b: i64) -> i64
    requires nonzero { b ≢ pos 0 }
    requires fits { has_no_quotient a b ≡ false }
    ensures { result ≡ floor_quotient a b }
{
    if b > 0 {
        a.div_euclid(b)
    } else {
        (-i128::from(a)).div_euclid(-i128::from(b)) as i64
    }
}

/// What is left, with the sign of the divisor.
fn floor_rest(a: i64, b: i64) -> i64
    requires { b ≢ pos 0 }
    ensures { result ≡ floor_rest a b }
{
    if b > 0 {
        a.rem_euclid(b)
    } else {
        (-(-i128::from(a)).rem_euclid(-i128::from(b))) as i64
    }
}

/// `div a b`
pub fn quotient(a: i64, b: i64) -> Found
    ensures { out_of result ≡ quotient a b }
{
    if b == 0 {
        Found::Throws(Exn::DivideByZero)
    } else if a == i64::MIN && b == -1 {
        Found::Throws(Exn::Overflow)
    } else {
        Found::Value(Value::Int(floor_quotient(a, b)))
    }
}

/// `mod a b`
pub fn remainder(a: i64, b: i64) -> Found
    ensures { out_of result ≡ remainder a b }
{
    if b == 0 {
        Found::Throws(Exn::DivideByZero)
    } else {
        Found::Value(Value::Int(floor_rest(a, b)))
    }
}

/// `a + b`
#[tactic(auto, using(std::proofs::lemmas::Int::wraps))]
pub fn plus(a: i64, b: i64) -> i64
    ensures { result ≡ plus a b }
{
    a.wrapping_add(b)
}

/// `a - b`
#[tactic(auto, using(std::proofs::lemmas::Int::wraps))]
pub fn minus(a: i64, b: i64) -> i64
    ensures { result ≡ minus a b }
{
    a.wrapping_sub(b)
}

/// `a * b`
pub fn times(a: i64, b: i64) -> i64
    ensures { result ≡ times a b }
{
    a.wrapping_mul(b)
}

/// `-a`
#[tactic(auto, using(std::proofs::lemmas::Int::wraps))]
pub fn negated(a: i64) -> i64
    ensures { result ≡ negated a }
{
    a.wrapping_neg()
}
