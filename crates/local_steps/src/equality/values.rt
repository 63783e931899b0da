ghost use Rattle.std.specs.Prelude.{◌≡◌, ◌↔◌, IsTrue, IfOk, OnErr};
ghost use Rattle.local_steps.specs.equality.Efforts.{IsEndless};

use crate::environments::Env;
use crate::equality::effort::{Effort, Undecided};
use hs_base::{Exn, Txt, Value, ValueList};

/// So many bytes of a text are compared in the time of one value.
const BYTES_A_STEP: usize = 64;

/// Whether two texts have the same bytes.
fn compare_texts(a: &Txt, b: &Txt, effort: &mut Effort) -> Result<bool, Undecided>
    ensures same { IfOk result (λ same. IsTrue same ↔ (a.now ≡ b.now)) }
    ensures endless { IsEndless effort.old → IsEndless effort.new }
    ensures err { OnErr result (IsEndless effort.old → ⊥) }
{
    effort.spend((a.as_str().len() / BYTES_A_STEP) as u64)?;
    Ok(a.same(b))
}

/// Whether two exceptions are equal.
fn compare_exceptions(a: &Exn, b: &Exn, effort: &mut Effort) -> Result<bool, Undecided>
    ensures same { IfOk result (λ same. IsTrue same ↔ (a.now ≡ b.now)) }
    ensures endless { IsEndless effort.old → IsEndless effort.new }
    ensures err { OnErr result (IsEndless effort.old → ⊥) }
{
    if let Exn::ErrorCall(text) = a {
        effort.spend((text.as_str().len() / BYTES_A_STEP) as u64)?;
    }
    Ok(a.same(b))
}

/// Whether two values are equal, where the effort does.
#[cycle(same)]
fn compare_values(a: &Value, b: &Value, effort: &mut Effort) -> Result<bool, Undecided>
    ensures same { IfOk result (λ same. IsTrue same ↔ (a.now ≡ b.now)) }
    ensures endless { IsEndless effort.old → IsEndless effort.new }
    ensures err { OnErr result (IsEndless effort.old → ⊥) }
{
    effort.spend(1)?;
    match (a, b) {
        (Value::Unit, Value::Unit) => Ok(true),
        (Value::Int(a), Value::Int(b)) => Ok(a == b),
        (Value::Bool(a), Value::Bool(b)) => Ok(a == b),
        (Value::Text(a), Value::Text(b)) => compare_texts(a, b, effort),
        (Value::Pair(a, c), Value::Pair(b, d)) => Ok(
            compare_values(a.get(), b.get(), effort)? && compare_values(c.get(), d.get(), effort)?,
        ),
        (Value::Nothing, Value::Nothing) => Ok(true),
        (Value::Just(a), Value::Just(b)) => compare_values(a.get(), b.get(), effort),
        (Value::Left(a), Value::Left(b)) => compare_values(a.get(), b.get(), effort),
        (Value::Right(a), Value::Right(b)) => compare_values(a.get(), b.get(), effort),
        (Value::List(a), Value::List(b)) => compare_lists(a, b, effort),
        (Value::Cell(a), Value::Cell(b)) => Ok(a == b),
        (Value::Thread(a), Value::Thread(b)) => Ok(a == b),
        (Value::Exn(a), Value::Exn(b)) => compare_exceptions(a, b, effort),
        (Value::Restore(a), Value::Restore(b)) => Ok(a == b),
        (Value::Inst(a), Value::Inst(b)) => Ok(a == b),
        _ => Ok(false),
    }
}

/// Whether two lists are equal, by a loop along them.
#[cycle(same)]
fn compare_lists(a: &ValueList, b: &ValueList, effort: &mut Effort) -> Result<bool, Undecided>
    ensures same { IfOk result (λ same. IsTrue same ↔ (a.now ≡ b.now)) }
    ensures endless { IsEndless effort.old → IsEndless effort.new }
    ensures err { OnErr result (IsEndless effort.old → ⊥) }
{
    let mut a = a;
    let mut b = b;
    loop {
        match (a, b) {
            (ValueList::Nil, ValueList::Nil) => return Ok(true),
            (ValueList::Cons(x), ValueList::Cons(y)) => {
                let x = x.get();
                let y = y.get();
                let alike = compare_values(&x.first, &y.first, effort)?;
                if !alike {
                    return Ok(false);
                }
                a = &x.rest;
                b = &y.rest;
            }
            _ => return Ok(false),
        }
    }
}

/// Whether two environments have the same values, where the effort does: it takes a step for each value that is compared, and
/// for each 64 bytes of a text. `Undecided` comes only where the steps are counted.
#[tactic(auto, using(crate::proofs::equality_lemmas::Slots::same_at_each))]
pub fn compare_envs(a: &Env, b: &Env, effort: &mut Effort) -> Result<bool, Undecided>
    ensures same { IfOk result (λ same. IsTrue same ↔ (a.now ≡ b.now)) }
    ensures endless { IsEndless effort.old → IsEndless effort.new }
    ensures err { OnErr result (IsEndless effort.old → ⊥) }
{
    let count = a.len();
    if count != b.len() {
        return Ok(false);
    }
    for at in 0..count {
        match (a.get(at), b.get(at)) {
            (Some(x), Some(y)) => {
                if !compare_values(x, y, effort)? {
                    return Ok(false);
                }
            }
            _ => return Ok(false),
        }
    }
    Ok(true)
}

/// Whether two values are equal.
pub fn same_value(a: &Value, b: &Value) -> bool
    ensures { IsTrue result ↔ (a.now ≡ b.now) }
{
    match compare_values(a, b, &mut Effort::Endless) {
        Ok(same) => same,
        Err(Undecided) => unreachable!(),
    }
}

/// Whether two environments have the same values.
pub fn same_env(a: &Env, b: &Env) -> bool
    ensures { IsTrue result ↔ (a.now ≡ b.now) }
{
    match compare_envs(a, b, &mut Effort::Endless) {
        Ok(same) => same,
        Err(Undecided) => unreachable!(),
    }
}
