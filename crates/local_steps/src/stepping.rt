//! One local rule.
ghost use Rattle.std.specs.Prelude.{◌≡◌, ◌++◌, ◌∷◌, [], IfOk, OnErr, slice_get, Some, None, MatchOption, List};
ghost use Rattle.hs_base.specs.declared.mask.Mask.TheVariants as mask;
ghost use Rattle.rules_meaning.specs.Values as val;
ghost use Rattle.rules_meaning.specs.Values.{V, value_of, values_of};
ghost use Rattle.rules_code.specs.declared.code.CodeBody.{CodeBody};
ghost use Rattle.rules_code.specs.CodeTrees.{Sa};
ghost use Rattle.slot_laws.specs.SlotRules as rules;
ghost use Rattle.slot_laws.specs.SlotRules.{at, just_part, performs, forks, forks_unmask, on_top, first_step, bind_to, then_to, catch_by, mask_in, doing, local};
ghost use Rattle.local_steps.specs.declared.active.StepResult.TheVariants as next;
ghost use Rattle.local_steps.specs.Frames.{mask_inside};
ghost use Rattle.local_steps.specs.Machine.{act_of, active_of, decoded_above, frames_of, next_of, alone_of, funs_of};

use crate::active::{Active, Frame, StepResult};
use crate::acts::{Parts, act_at};
use crate::choices::with_one;
use crate::environments::Env;
use crate::frames::Frames;
use crate::parts::{
    do_call, do_either, do_if, do_let, do_list, do_maybe, do_pair, do_perform, do_return, do_throw,
};
use hs_base::{Exn, Mask, NoMemory, Value};
use rules_code::{Act, ActId, CodeBody};
use std::alloc::Global;

/// `x <- A; B`
fn bind(
    alloc: Global,
    i: ActId,
    j: ActId,
    env: Env,
    frames: &mut Frames,
) -> Result<StepResult, NoMemory>
    ensures rule { IfOk result (λ n. (b : CodeBody) → next_of b n frames.new.list ≡ Some (at (doing (act_of b i) (values_of env)) (bind_to (act_of b j) (values_of env) ∷ frames_of b frames.old.list))) }
    ensures below { frames.new.below ≡ frames.old.below }
    ensures err { OnErr result (frames.new ≡ frames.old) }
{
    let rest = env.waiting(alloc)?;
    frames.add(Frame::Bind(j, rest))?;
    Ok(StepResult::To(Active::Doing(i, env)))
}

/// `A; B`
fn then(
    alloc: Global,
    i: ActId,
    j: ActId,
    env: Env,
    frames: &mut Frames,
) -> Result<StepResult, NoMemory>
    ensures rule { IfOk result (λ n. (b : CodeBody) → next_of b n frames.new.list ≡ Some (at (doing (act_of b i) (values_of env)) (then_to (act_of b j) (values_of env) ∷ frames_of b frames.old.list))) }
    ensures below { frames.new.below ≡ frames.old.below }
    ensures err { OnErr result (frames.new ≡ frames.old) }
{
    let rest = env.copy(alloc)?;
    frames.add(Frame::Then(j, rest))?;
    Ok(StepResult::To(Active::Doing(i, env)))
}

/// `catch A x B`
fn catch(
    alloc: Global,
    i: ActId,
    j: ActId,
    env: Env,
    frames: &mut Frames,
) -> Result<StepResult, NoMemory>
    ensures rule { IfOk result (λ n. (b : CodeBody) → next_of b n frames.new.list ≡ Some (at (doing (act_of b i) (values_of env)) (catch_by (act_of b j) (values_of env) ∷ frames_of b frames.old.list))) }
    ensures below { frames.new.below ≡ frames.old.below }
    ensures err { OnErr result (frames.new ≡ frames.old) }
{
    let rest = env.waiting(alloc)?;
    frames.add(Frame::Catch(j, rest))?;
    Ok(StepResult::To(Active::Doing(i, env)))
}

/// An action in a masking scope with the state `inside`, with the state outside of it in its next slot.
fn masked(
    alloc: Global,
    act: ActId,
    env: Env,
    inside: Mask,
    frames: &mut Frames,
) -> Result<StepResult, NoMemory>
    ensures rule { IfOk result (λ n. (b : CodeBody) → next_of b n frames.new.list ≡ Some (at (doing (act_of b act) (values_of env ++ val.Restore (mask_inside frames.old.below frames.old.list) ∷ [])) (mask_in inside ∷ frames_of b frames.old.list))) }
    ensures below { frames.new.below ≡ frames.old.below }
    ensures err { OnErr result (frames.new ≡ frames.old) }
{
    let outside = frames.mask();
    let next = with_one(alloc, env, Value::Restore(outside), act)?;
    frames.enter(inside)?;
    Ok(next)
}

/// The state that a value is, if it is one.
#[tactic(auto, using(crate::proofs::Forms::no_mask, hs_eval::proofs::Cases::value_forms))]
fn state_of(value: &Value) -> Option<Mask>
    ensures { MatchOption result ((a : Sa) (vs : List V) → rules.restored a vs (Some (value_of value.now)) ≡ None) (λ m. Some (value_of value.now) ≡ Some (val.Restore m)) }
{
    match value {
        Value::Restore(mask) => Some(*mask),
        _ => None,
    }
}

/// The state in a slot, if there is one.
#[tactic(auto, using(slot_laws::proofs::ActNodes::value_some, slot_laws::proofs::ActNodes::value_none))]
fn state_at(env: &Env, slot: usize) -> Option<Mask>
    ensures { MatchOption result ((a : Sa) (vs : List V) → rules.restored a vs (slice_get (values_of env.now) slot) ≡ None) (λ m. slice_get (values_of env.now) slot ≡ Some (val.Restore m)) }
{
    match env.get(slot) {
        None => None,
        Some(value) => state_of(value),
    }
}

/// `restore r A`
fn restore(slot: usize, i: ActId, env: Env, frames: &mut Frames) -> Result<StepResult, NoMemory>
    ensures rule { IfOk result (λ n. (b : CodeBody) → next_of b n frames.new.list ≡ on_top (frames_of b frames.old.list) (rules.restored (act_of b i) (values_of env) (slice_get (values_of env) slot))) }
    ensures below { frames.new.below ≡ frames.old.below }
    ensures stuck { IfOk result (λ n. n ≡ next.Stuck → frames.new ≡ frames.old) }
    ensures err { OnErr result (frames.new ≡ frames.old) }
{
    match state_at(&env, slot) {
        None => Ok(StepResult::Stuck),
        Some(mask) => {
            frames.enter(mask)?;
            Ok(StepResult::To(Active::Doing(i, env)))
        }
    }
}

/// A value and the frame directly round it. It takes no memory.
#[tactic(auto, using(slot_laws::proofs::ActNodes::values_push))]
pub fn meet_value(value: Value, frames: &mut Frames) -> StepResult
    ensures rule { (b : CodeBody) → next_of b result frames.new.list ≡ rules.ret_step (value_of value) (frames_of b frames.old.list) }
    ensures below { frames.new.below ≡ frames.old.below }
    ensures stuck { result ≡ next.Stuck → frames.new ≡ frames.old }
{
    match frames.pop() {
        None => StepResult::Stuck,
        Some(Frame::Bind(i, env)) => StepResult::To(Active::Doing(i, env.with(value))),
        Some(Frame::Then(i, env)) => StepResult::To(Active::Doing(i, env)),
        Some(Frame::Catch(_, _)) => StepResult::To(Active::Ret(value)),
        Some(Frame::Mask(_)) => StepResult::To(Active::Ret(value)),
    }
}

/// An exception and the frame directly round it. It takes no memory.
#[tactic(auto, using(crate::proofs::Codes::handler_next))]
pub fn meet_exception(exn: Exn, frames: &mut Frames) -> StepResult
    ensures rule { (b : CodeBody) → next_of b result frames.new.list ≡ rules.throw_step frames.old.below exn (frames_of b frames.old.list) }
    ensures below { frames.new.below ≡ frames.old.below }
    ensures stuck { result ≡ next.Stuck → frames.new ≡ frames.old }
{
    if frames.has_handler() {
        let (handler, env) = frames.handle();
        return StepResult::To(Active::Doing(handler, env.with(Value::Exn(exn))));
    }
    match frames.pop() {
        None => StepResult::Stuck,
        Some(_) => StepResult::To(Active::Throw(exn)),
    }
}

/// The first local rule of an action.
#[tactic(auto, using(crate::proofs::Codes::alone_next))]
fn act_step(
    alloc: Global,
    body: &CodeBody,
    above: usize,
    act: &Act,
    env: Env,
    frames: &mut Frames,
) -> Result<StepResult, NoMemory>
    ensures rule { IfOk result (λ n. next_of body.now n frames.new.list ≡ on_top (frames_of body.now frames.old.list) (first_step (funs_of body.now) (mask_inside frames.old.below frames.old.list) (decoded_above body.now above act.now) (values_of env))) }
    ensures below { frames.new.below ≡ frames.old.below }
    ensures stuck { IfOk result (λ n. n ≡ next.Stuck → frames.new ≡ frames.old) }
    ensures err { OnErr result (frames.new ≡ frames.old) }
{
    let parts = Parts { body, above };
    match act {
        Act::Return(e) => do_return(alloc, body, *e, env),
        Act::Throw(e) => do_throw(alloc, body, *e, env),
        Act::Let(e, i) => do_let(alloc, body, *e, parts.at(*i), env),
        Act::Bind(i, j) => bind(alloc, parts.at(*i), parts.at(*j), env, frames),
        Act::Then(i, j) => then(alloc, parts.at(*i), parts.at(*j), env, frames),
        Act::If(e, i, j) => do_if(alloc, body, *e, parts.at(*i), parts.at(*j), env),
        Act::CaseMaybe(e, i, j) => do_maybe(alloc, body, *e, parts.at(*i), parts.at(*j), env),
        Act::CaseEither(e, i, j) => do_either(alloc, body, *e, parts.at(*i), parts.at(*j), env),
        Act::CaseList(e, i, j) => do_list(alloc, body, *e, parts.at(*i), parts.at(*j), env),
        Act::CasePair(e, i) => do_pair(alloc, body, *e, parts.at(*i), env),
        Act::Call(f, ids) => do_call(alloc, body, *f, ids, env),
        Act::Perform(primitive, ids) => do_perform(alloc, body, *primitive, ids, env),
        Act::Fork(i) => Ok(forked(parts.at(*i), env)),
        Act::ForkUnmask(i) => Ok(forked_unmask(parts.at(*i), env)),
        Act::Catch(i, j) => catch(alloc, parts.at(*i), parts.at(*j), env, frames),
        Act::Mask(i) => {
            let inside = Mask::Masked.join(frames.mask());
            masked(alloc, parts.at(*i), env, inside, frames)
        }
        Act::UninterruptibleMask(i) => {
            masked(alloc, parts.at(*i), env, Mask::Uninterruptible, frames)
        }
        Act::Restore(slot, i) => restore(*slot, parts.at(*i), env, frames),
    }
}

fn forked(at: ActId, env: Env) -> StepResult
    ensures { (b : CodeBody) → alone_of b result ≡ just_part (performs (forks (act_of b at) (values_of env))) }
{
    StepResult::To(Active::Forks(at, env))
}

fn forked_unmask(at: ActId, env: Env) -> StepResult
    ensures { (b : CodeBody) → alone_of b result ≡ just_part (performs (forks_unmask (act_of b at) (values_of env))) }
{
    StepResult::To(Active::ForksUnmask(at, env))
}

/// One local rule of a code.
#[tactic(auto, using(crate::proofs::Codes::masks_inside))]
pub fn step(
    alloc: Global,
    body: &CodeBody,
    active: Active,
    frames: &mut Frames,
) -> Result<StepResult, NoMemory>
    ensures rule { IfOk result (λ n. next_of body.now n frames.new.list ≡ local (funs_of body.now) frames.old.below (active_of body.now active) (frames_of body.now frames.old.list)) }
    ensures below { frames.new.below ≡ frames.old.below }
    ensures stuck { IfOk result (λ n. n ≡ next.Stuck → frames.new ≡ frames.old) }
    ensures err { OnErr result (frames.new ≡ frames.old) }
{
    match active {
        Active::Ret(value) => Ok(meet_value(value, frames)),
        Active::Throw(exn) => Ok(meet_exception(exn, frames)),
        Active::Asks(_, _) => Ok(StepResult::Stuck),
        Active::Forks(_, _) => Ok(StepResult::Stuck),
        Active::ForksUnmask(_, _) => Ok(StepResult::Stuck),
        Active::Doing(i, env) => match act_at(body, i) {
            None => Ok(StepResult::Stuck),
            Some(act) => act_step(alloc, body, i.0, act, env, frames),
        },
    }
}
