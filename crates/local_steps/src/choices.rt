//! What follows an expression, by what it gives.
//!
//! A contract speaks of every code, since the number of an action stands for whatever its code says.
ghost use Rattle.std.specs.Prelude.{◌≡◌, ◌++◌, ◌∷◌, [], IfOk, Some, None, List, Option};
ghost use Rattle.hs_base.specs.declared.value.Value.{Value};
ghost use Rattle.rules_code.specs.declared.code.CodeBody.{CodeBody};
ghost use Rattle.rules_meaning.specs.Values.{value_of, values_of, Truth};
ghost use Rattle.hs_eval.specs.Founds.{out_of};
ghost use Rattle.local_steps.specs.Machine.{act_of, alone_of};
ghost use Rattle.slot_laws.specs.SlotRules as rules;
ghost use Rattle.slot_laws.specs.SlotRules.{SlotTerm, just_part, ret, doing};

use crate::active::{Active, StepResult};
use crate::environments::Env;
use hs_base::{NoMemory, Split, Value};
use hs_eval::Found;
use rules_code::ActId;
use std::alloc::Global;

/// `return`
pub fn returned(found: Found) -> StepResult
    ensures { (b : CodeBody) → alone_of b result ≡ rules.on_value (out_of found) (λ u. just_part (ret u)) }
{
    match found {
        Found::Value(value) => StepResult::To(Active::Ret(value)),
        Found::Throws(exn) => StepResult::To(Active::Throw(exn)),
        Found::Stuck => StepResult::Stuck,
    }
}

/// An exception that a value is.
#[tactic(auto, using(crate::proofs::Forms::no_exn, hs_eval::proofs::Cases::value_forms))]
fn thrown_value(value: Value) -> StepResult
    ensures { (b : CodeBody) → alone_of b result ≡ rules.thrown (value_of value) }
{
    match value.into_exn() {
        Some(exn) => StepResult::To(Active::Throw(exn)),
        None => StepResult::Stuck,
    }
}

/// `throwIO`
pub fn thrown(found: Found) -> StepResult
    ensures { (b : CodeBody) → alone_of b result ≡ rules.on_value (out_of found) rules.thrown }
{
    match found {
        Found::Value(value) => thrown_value(value),
        Found::Throws(exn) => StepResult::To(Active::Throw(exn)),
        Found::Stuck => StepResult::Stuck,
    }
}

/// An action with one value more.
#[tactic(auto, using(slot_laws::proofs::ActNodes::values_push))]
pub fn with_one(alloc: Global, env: Env, value: Value, at: ActId) -> Result<StepResult, NoMemory>
    ensures { IfOk result (λ n. (b : CodeBody) → alone_of b n ≡ just_part (doing (act_of b at) (values_of env ++ value_of value ∷ []))) }
{
    let mut env = env;
    env.push(alloc, value)?;
    Ok(StepResult::To(Active::Doing(at, env)))
}

/// An action with two values more.
#[tactic(auto, using(slot_laws::proofs::ActNodes::values_push))]
pub fn with_two(
    alloc: Global,
    env: Env,
    first: Value,
    second: Value,
    at: ActId,
) -> Result<StepResult, NoMemory>
    ensures { IfOk result (λ n. (b : CodeBody) → alone_of b n ≡ just_part (doing (act_of b at) ((values_of env ++ value_of first ∷ []) ++ value_of second ∷ []))) }
{
    let mut env = env;
    env.push(alloc, first)?;
    env.push(alloc, second)?;
    Ok(StepResult::To(Active::Doing(at, env)))
}

/// `let`
pub fn bound(alloc: Global, found: Found, env: Env, at: ActId) -> Result<StepResult, NoMemory>
    ensures { IfOk result (λ n. (b : CodeBody) → alone_of b n ≡ rules.on_value (out_of found) (λ u. just_part (doing (act_of b at) (values_of env ++ u ∷ [])))) }
{
    match found {
        Found::Value(value) => with_one(alloc, env, value, at),
        Found::Throws(exn) => Ok(StepResult::To(Active::Throw(exn))),
        Found::Stuck => Ok(StepResult::Stuck),
    }
}

/// One of two actions.
fn arm(test: bool, env: Env, i: ActId, j: ActId) -> StepResult
    ensures { (b : CodeBody) → alone_of b result ≡ rules.chosen (act_of b i) (act_of b j) (values_of env) (Truth test) }
{
    if test {
        StepResult::To(Active::Doing(i, env))
    } else {
        StepResult::To(Active::Doing(j, env))
    }
}

/// `if` at the value of its test.
#[tactic(auto, using(crate::proofs::Forms::no_choice, hs_eval::proofs::Cases::value_forms))]
pub fn choose(value: Value, env: Env, i: ActId, j: ActId) -> StepResult
    ensures { (b : CodeBody) → alone_of b result ≡ rules.chosen (act_of b i) (act_of b j) (values_of env) (value_of value) }
{
    match &value {
        Value::Bool(test) => arm(*test, env, i, j),
        _ => StepResult::Stuck,
    }
}

/// `case` of a Maybe.
#[tactic(auto, using(crate::proofs::Forms::no_maybe_choice, hs_eval::proofs::Cases::value_forms))]
pub fn choose_maybe(
    alloc: Global,
    value: Value,
    env: Env,
    i: ActId,
    j: ActId,
) -> Result<StepResult, NoMemory>
    ensures { IfOk result (λ n. (b : CodeBody) → alone_of b n ≡ rules.chosen_maybe (act_of b i) (act_of b j) (values_of env) (value_of value)) }
{
    match &value {
        Value::Nothing => Ok(StepResult::To(Active::Doing(i, env))),
        Value::Just(a) => with_one(alloc, env, a.get().copy(alloc)?, j),
        _ => Ok(StepResult::Stuck),
    }
}

/// `case` of an Either.
#[tactic(auto, using(crate::proofs::Forms::no_either_choice, hs_eval::proofs::Cases::value_forms))]
pub fn choose_either(
    alloc: Global,
    value: Value,
    env: Env,
    i: ActId,
    j: ActId,
) -> Result<StepResult, NoMemory>
    ensures { IfOk result (λ n. (b : CodeBody) → alone_of b n ≡ rules.chosen_either (act_of b i) (act_of b j) (values_of env) (value_of value)) }
{
    match &value {
        Value::Left(a) => with_one(alloc, env, a.get().copy(alloc)?, i),
        Value::Right(a) => with_one(alloc, env, a.get().copy(alloc)?, j),
        _ => Ok(StepResult::Stuck),
    }
}

/// `case` of a list.
#[tactic(auto, using(crate::proofs::Forms::no_list_choice, crate::proofs::Forms::list_choices))]
pub fn choose_list(
    alloc: Global,
    value: Value,
    env: Env,
    i: ActId,
    j: ActId,
) -> Result<StepResult, NoMemory>
    ensures { IfOk result (λ n. (b : CodeBody) → alone_of b n ≡ rules.chosen_list (act_of b i) (act_of b j) (values_of env) (value_of value)) }
{
    match &value {
        Value::List(items) => match items.split()? {
            Split::Empty => Ok(StepResult::To(Active::Doing(i, env))),
            Split::Of(first, rest) => {
                let first = first.copy(alloc)?;
                with_two(alloc, env, first, Value::List(rest), j)
            }
        },
        _ => Ok(StepResult::Stuck),
    }
}

/// `case` of a pair.
#[tactic(auto, using(crate::proofs::Forms::no_pair_choice, hs_eval::proofs::Cases::value_forms))]
pub fn choose_pair(alloc: Global, value: Value, env: Env, i: ActId) -> Result<StepResult, NoMemory>
    ensures { IfOk result (λ n. (b : CodeBody) → alone_of b n ≡ rules.chosen_pair (act_of b i) (values_of env) (value_of value)) }
{
    match &value {
        Value::Pair(a, b) => with_two(alloc, env, a.get().copy(alloc)?, b.get().copy(alloc)?, i),
        _ => Ok(StepResult::Stuck),
    }
}
