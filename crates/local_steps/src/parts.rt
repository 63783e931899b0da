//! The expressions of an action, and what follows what they give.
ghost use Rattle.std.specs.Prelude.{◌≡◌, ◌==◌, ◌++◌, ◌∷◌, [], length, ◌<◌, cond, Some, None, IfOk, OnOk, slice_get};
ghost use Rattle.rules_code.specs.declared.code.CodeBody.{CodeBody};
ghost use Rattle.rules_meaning.specs.Values.{values_of};
ghost use Rattle.rules_code.specs.Slots.{run, run_all, trees, tree_at, trees_in};
ghost use Rattle.hs_eval.specs.Evaluation.{outs_of};
ghost use Rattle.local_steps.specs.Machine.{act_of, alone_of, funs_of};
ghost use Rattle.slot_laws.specs.SlotRules as rules;
ghost use Rattle.slot_laws.specs.SlotRules.{just_part, ret, doing, performs, calls};

use crate::active::{Active, StepResult};
use crate::choices::{
    bound, choose, choose_either, choose_list, choose_maybe, choose_pair, returned, thrown,
};
use crate::environments::Env;
use hs_base::{NoMemory, Values};
use hs_eval::{Found, FoundAll};
use hs_items::Items;
use rules_code::{ActId, CodeBody, ExprId, Fun, Node, Primitive};
use std::alloc::Global;

fn id_at(ids: &[ExprId], i: usize) -> ExprId
    requires { i < length ids.now }
    ensures { slice_get ids.now i ≡ Some result }
{
    ids[i]
}

/// What expressions give, from the left to the right, up to the first exception. The values get the memory of `room`.
pub fn eval_all(
    alloc: Global,
    nodes: &Items<Node>,
    ids: &Items<ExprId>,
    env: &mut Env,
    room: Values,
) -> Result<FoundAll, NoMemory>
    requires { room ≡ [] }
    ensures value { IfOk result (λ o. outs_of o ≡ run_all (trees_in (trees nodes.now) ids.now) (values_of env.old)) }
    ensures same { OnOk result (env.new ≡ env.old) }
{
    let mut values = room;
    'each: for i in 0..ids.len() {
        let id = id_at(ids.as_slice(), i);
        match env.eval(alloc, nodes, id)? {
            Found::Throws(exn) => return Ok(FoundAll::Throws(exn)),
            Found::Stuck => return Ok(FoundAll::Stuck),
            Found::Value(value) => values.add(value)?,
        }
    }
    Ok(FoundAll::Values(values))
}

/// `return`
pub fn do_return(
    alloc: Global,
    body: &CodeBody,
    e: ExprId,
    env: Env,
) -> Result<StepResult, NoMemory>
    ensures { IfOk result (λ n. alone_of body.now n ≡ rules.on_value (run (tree_at body.now.nodes e) (values_of env)) (λ u. just_part (ret u))) }
{
    let mut env = env;
    let found = env.eval(alloc, &body.nodes, e)?;
    Ok(returned(found))
}

/// `throwIO`
pub fn do_throw(alloc: Global, body: &CodeBody, e: ExprId, env: Env) -> Result<StepResult, NoMemory>
    ensures { IfOk result (λ n. alone_of body.now n ≡ rules.on_value (run (tree_at body.now.nodes e) (values_of env)) rules.thrown) }
{
    let mut env = env;
    let found = env.eval(alloc, &body.nodes, e)?;
    Ok(thrown(found))
}

/// `let`
pub fn do_let(
    alloc: Global,
    body: &CodeBody,
    e: ExprId,
    i: ActId,
    env: Env,
) -> Result<StepResult, NoMemory>
    ensures { IfOk result (λ n. alone_of body.now n ≡ rules.on_value (run (tree_at body.now.nodes e) (values_of env)) (λ u. just_part (doing (act_of body.now i) (values_of env ++ u ∷ [])))) }
{
    let mut env = env;
    let found = env.eval(alloc, &body.nodes, e)?;
    bound(alloc, found, env, i)
}

/// `if`
pub fn do_if(
    alloc: Global,
    body: &CodeBody,
    e: ExprId,
    i: ActId,
    j: ActId,
    env: Env,
) -> Result<StepResult, NoMemory>
    ensures { IfOk result (λ n. alone_of body.now n ≡ rules.on_value (run (tree_at body.now.nodes e) (values_of env)) (rules.chosen (act_of body.now i) (act_of body.now j) (values_of env))) }
{
    let mut env = env;
    match env.eval(alloc, &body.nodes, e)? {
        Found::Value(value) => Ok(choose(value, env, i, j)),
        Found::Throws(exn) => Ok(StepResult::To(Active::Throw(exn))),
        Found::Stuck => Ok(StepResult::Stuck),
    }
}

/// `case` of a Maybe.
pub fn do_maybe(
    alloc: Global,
    body: &CodeBody,
    e: ExprId,
    i: ActId,
    j: ActId,
    env: Env,
) -> Result<StepResult, NoMemory>
    ensures { IfOk result (λ n. alone_of body.now n ≡ rules.on_value (run (tree_at body.now.nodes e) (values_of env)) (rules.chosen_maybe (act_of body.now i) (act_of body.now j) (values_of env))) }
{
    let mut env = env;
    match env.eval(alloc, &body.nodes, e)? {
        Found::Value(value) => choose_maybe(alloc, value, env, i, j),
        Found::Throws(exn) => Ok(StepResult::To(Active::Throw(exn))),
        Found::Stuck => Ok(StepResult::Stuck),
    }
}

/// `case` of an Either.
pub fn do_either(
    alloc: Global,
    body: &CodeBody,
    e: ExprId,
    i: ActId,
    j: ActId,
    env: Env,
) -> Result<StepResult, NoMemory>
    ensures { IfOk result (λ n. alone_of body.now n ≡ rules.on_value (run (tree_at body.now.nodes e) (values_of env)) (rules.chosen_either (act_of body.now i) (act_of body.now j) (values_of env))) }
{
    let mut env = env;
    match env.eval(alloc, &body.nodes, e)? {
        Found::Value(value) => choose_either(alloc, value, env, i, j),
        Found::Throws(exn) => Ok(StepResult::To(Active::Throw(exn))),
        Found::Stuck => Ok(StepResult::Stuck),
    }
}

/// `case` of a list.
pub fn do_list(
    alloc: Global,
    body: &CodeBody,
    e: ExprId,
    i: ActId,
    j: ActId,
    env: Env,
) -> Result<StepResult, NoMemory>
    ensures { IfOk result (λ n. alone_of body.now n ≡ rules.on_value (run (tree_at body.now.nodes e) (values_of env)) (rules.chosen_list (act_of body.now i) (act_of body.now j) (values_of env))) }
{
    let mut env = env;
    match env.eval(alloc, &body.nodes, e)? {
        Found::Value(value) => choose_list(alloc, value, env, i, j),
        Found::Throws(exn) => Ok(StepResult::To(Active::Throw(exn))),
        Found::Stuck => Ok(StepResult::Stuck),
    }
}

/// `case` of a pair.
pub fn do_pair(
    alloc: Global,
    body: &CodeBody,
    e: ExprId,
    i: ActId,
    env: Env,
) -> Result<StepResult, NoMemory>
    ensures { IfOk result (λ n. alone_of body.now n ≡ rules.on_value (run (tree_at body.now.nodes e) (values_of env)) (rules.chosen_pair (act_of body.now i) (values_of env))) }
{
    let mut env = env;
    match env.eval(alloc, &body.nodes, e)? {
        Found::Value(value) => choose_pair(alloc, value, env, i),
        Found::Throws(exn) => Ok(StepResult::To(Active::Throw(exn))),
        Found::Stuck => Ok(StepResult::Stuck),
    }
}

/// The same, where the function is there.
#[tactic(auto, using(slot_laws::proofs::ActNodes::values_count))]
fn enter(alloc: Global, fun: Fun, args: Values) -> Result<StepResult, NoMemory>
    ensures { IfOk result (λ n. (b : CodeBody) → alone_of b n ≡ cond (fun.params == length (values_of args)) (just_part (doing (act_of b fun.body) (values_of args))) None) }
{
    if fun.params as usize == args.len() {
        let env = Env::of(alloc, args)?;
        Ok(StepResult::To(Active::Doing(fun.body, env)))
    } else {
        Ok(StepResult::Stuck)
    }
}

/// The body of a function, in its parameters' values.
#[tactic(auto, using(slot_laws::proofs::ActNodes::fun_some, slot_laws::proofs::ActNodes::fun_none, slot_laws::proofs::ActNodes::values_count))]
fn entered(alloc: Global, body: &CodeBody, f: u32, args: Values) -> Result<StepResult, NoMemory>
    ensures { IfOk result (λ n. alone_of body.now n ≡ rules.called (slice_get (funs_of body.now) f) (values_of args)) }
{
    match body.funs.get(f as usize) {
        None => Ok(StepResult::Stuck),
        Some(fun) => enter(alloc, *fun, args),
    }
}

/// `f e ..`
pub fn do_call(
    alloc: Global,
    body: &CodeBody,
    f: u32,
    ids: &Items<ExprId>,
    env: Env,
) -> Result<StepResult, NoMemory>
    ensures { IfOk result (λ n. alone_of body.now n ≡ rules.on_values (run_all (trees_in (trees body.now.nodes) ids.now) (values_of env)) (rules.called (slice_get (funs_of body.now) f))) }
{
    let mut env = env;
    match eval_all(alloc, &body.nodes, ids, &mut env, Items::new(alloc))? {
        FoundAll::Values(args) => entered(alloc, body, f, args),
        FoundAll::Throws(exn) => Ok(StepResult::To(Active::Throw(exn))),
        FoundAll::Stuck => Ok(StepResult::Stuck),
    }
}

/// A primitive.
pub fn do_perform(
    alloc: Global,
    body: &CodeBody,
    primitive: Primitive,
    ids: &Items<ExprId>,
    env: Env,
) -> Result<StepResult, NoMemory>
    ensures { IfOk result (λ n. alone_of body.now n ≡ rules.on_values (run_all (trees_in (trees body.now.nodes) ids.now) (values_of env)) (λ us. just_part (performs (calls primitive us)))) }
{
    let mut env = env;
    match eval_all(alloc, &body.nodes, ids, &mut env, Items::new(alloc))? {
        FoundAll::Values(args) => Ok(StepResult::To(Active::Asks(primitive, args))),
        FoundAll::Throws(exn) => Ok(StepResult::To(Active::Throw(exn))),
        FoundAll::Stuck => Ok(StepResult::Stuck),
    }
}
