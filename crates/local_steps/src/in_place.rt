//! The rules that loops do most, in place: an `if` at a comparison of numbers, and a call. What they change is the action and
//! its environment alone, so the part isn't moved, and no frame is touched.
//!
//! This is the quick way; `stepping` has all rules.
ghost use Rattle.std.specs.Prelude.{◌≡◌, List, Some, IfOk, IfSome, IsTrue, length, slice_get};
ghost use Rattle.hs_base.specs.declared.mask.Mask.{Mask};
ghost use Rattle.rules_meaning.specs.Values.{V, values_of};
ghost use Rattle.slot_laws.specs.SlotRules as rules;
ghost use Rattle.slot_laws.specs.SlotRules.{SlotFrame, at, doing, just_part, local};
ghost use Rattle.local_steps.specs.InPlace.{GoesToArm, GoesToBody};
ghost use Rattle.local_steps.specs.Machine.{act_of, active_of, funs_of};

use crate::active::Active;
use crate::acts::{Parts, act_at};
use crate::environments::{Env, Spare};
use crate::parts::eval_all;
use hs_base::NoMemory;
use hs_eval::FoundAll;
use hs_items::Items;
use rules_code::{Act, ActId, CodeBody, ExprId, Fun};
use std::alloc::Global;

/// The number of a function, and its arguments.
#[derive(Clone, Copy)]
struct Called<'a> {
    function: u32,
    args: &'a Items<ExprId>,
}

/// Does the local rule of such an action, a call with its arguments in spare memory. Whether it did: else the part is as before.
pub fn step_in_place(
    alloc: Global,
    body: &CodeBody,
    active: &mut Active,
    spare: &mut Spare,
) -> Result<bool, NoMemory>
    ensures rule { IfOk result (λ done. IsTrue done → (s : Mask) (fs : List SlotFrame) → local (funs_of body.now) s (active_of body.now active.old) fs ≡ Some (at (active_of body.now active.new) fs)) }
    ensures same { IfOk result (λ done. (IsTrue done → ⊥) → active.new ≡ active.old) }
{
    let Active::Doing(at, env) = active else {
        return Ok(false);
    };
    match act_at(body, *at) {
        Some(Act::If(e, i, j)) => Ok(branch(body, at, *e, *i, *j, env)),
        Some(Act::Call(function, args)) => {
            let called = Called {
                function: *function,
                args,
            };
            call(alloc, body, called, at, env, spare)
        }
        _ => Ok(false),
    }
}

/// `if`
fn branch(body: &CodeBody, at: &mut ActId, e: ExprId, i: ActId, j: ActId, env: &Env) -> bool
    ensures rule { IsTrue result → GoesToArm body.now at.old.0 e i j (values_of env.now) at.new }
    ensures same { (IsTrue result → ⊥) → at.new ≡ at.old }
{
    match env.test(&body.nodes, e) {
        None => false,
        Some(test) => {
            let parts = Parts { body, above: at.0 };
            *at = parts.at(if test { i } else { j });
            true
        }
    }
}

/// The function of a number, where it takes so many arguments.
#[tactic(auto, using(slot_laws::proofs::ActNodes::fun_some))]
fn fun_for(body: &CodeBody, f: u32, count: usize) -> Option<Fun>
    ensures { IfSome result (λ fun. (us : List V) → length us ≡ count → rules.called (slice_get (funs_of body.now) f) us ≡ just_part (doing (act_of body.now fun.body) us)) }
{
    match body.funs.get(f as usize) {
        Some(fun) if fun.params as usize == count => Some(*fun),
        _ => None,
    }
}

/// `f e ..`, whose arguments are the environment from then on, and whose function's body is the action. Whether it did: else all is
/// as before.
#[tactic(auto, using(slot_laws::proofs::ActNodes::values_count))]
fn call(
    alloc: Global,
    body: &CodeBody,
    called: Called,
    at: &mut ActId,
    env: &mut Env,
    spare: &mut Spare,
) -> Result<bool, NoMemory>
    ensures rule { IfOk result (λ done. IsTrue done → GoesToBody body.now called.entry.function called.entry.args.now (values_of env.old) at.new (values_of env.new)) }
    ensures same { IfOk result (λ done. (IsTrue done → ⊥) → (at.new ≡ at.old) × (env.new ≡ env.old)) }
{
    let room = spare.take(alloc);
    let FoundAll::Values(args) = eval_all(alloc, &body.nodes, called.args, env, room)? else {
        return Ok(false);
    };
    match fun_for(body, called.function, args.len()) {
        None => Ok(false),
        Some(fun) => {
            env.refill(alloc, args, spare)?;
            *at = fun.body;
            Ok(true)
        }
    }
}
