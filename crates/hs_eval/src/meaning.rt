//! What an expression gives, with the values of its slots, and what it means with names.
ghost use Rattle.std.specs.Prelude.{◌≡◌, IfOk, List};
ghost use Rattle.rules_expansion.specs.trees.Trees.{Ex};
ghost use Rattle.rules_expansion.specs.trees.Programs.{Fn};
ghost use Rattle.rules_meaning.specs.Values.{V, Env, values_of, Stuck};
ghost use Rattle.rules_meaning.specs.Meaning.{functions_of, value_of_ex};
ghost use Rattle.rules_code.specs.Slots.{Scope, roots_of, run, slotted, tree_at};
ghost use Rattle.rules_code.specs.Matching.{Matches};
ghost use Rattle.rules_code.specs.Codes.{body_of};
ghost use Rattle.rules_sorts.specs.TypedMeaning.{any_cell};
ghost use Rattle.hs_soundness.specs.CoreSorts.{GoodSort};
ghost use Rattle.hs_eval.specs.Founds.{out_of};
ghost use Rattle.hs_eval.specs.Readings.{Reading, meaning, outcome_of};

use crate::evaluate::eval_at;
use crate::found::Found;
use crate::outcome::Outcome;
use hs_base::{NoMemory, Values};
use hs_items::Items;
use rules_code::{Code, ExprId, Node};
use std::alloc::Global;

/// What an expression of a code gives, in an environment that fits its scope: exactly what the expression means with
/// names, which is a value of its sort or an exception.
pub fn eval(alloc: Global, code: &Code, at: ExprId, env: &Values) -> Result<Outcome, NoMemory>
    requires { ∥ Reading (body_of code.now) at (values_of env.now) ∥₁ }
    ensures value { IfOk result (λ o. (r : Reading (body_of code.now) at (values_of env.now)) → outcome_of o ≡ meaning (body_of code.now) at (values_of env.now) r) }
    ensures sort { IfOk result (λ o. (r : Reading (body_of code.now) at (values_of env.now)) → GoodSort any_cell r.sort (outcome_of o)) }
{
    let found = eval_node(alloc, nodes_of(code), at, env)?;
    Ok(unstuck(found))
}

/// Lends the nodes of a code.
fn nodes_of(code: &Code) -> &Items<Node>
    ensures { result.now ≡ (body_of code.now).nodes }
{
    &code.body.nodes
}

/// An answer where the typing rules are kept.
fn unstuck(found: Found) -> Outcome
    requires { out_of found ≡ Stuck → ⊥ }
    ensures { outcome_of result ≡ out_of found }
{
    match found {
        Found::Value(value) => Outcome::Value(value),
        Found::Throws(exn) => Outcome::Throws(exn),
        Found::Stuck => unreachable!(),
    }
}

/// What the node of a number gives, with these values of the slots.
#[tactic(auto, using(crate::proofs::Named::no_more_slots))]
pub fn eval_node(
    alloc: Global,
    nodes: &Items<Node>,
    at: ExprId,
    env: &Values,
) -> Result<Found, NoMemory>
    ensures { IfOk result (λ o. out_of o ≡ run (tree_at nodes.now at) (values_of env.now)) }
{
    let mut inner = Items::new(alloc);
    let found = eval_at(alloc, nodes, at, env, &mut inner)?;
    Ok(found)
}

/// An expression of a script, with slots, means what it means with names, in every environment that matches its scope.
#[tactic(auto, using(rules_code::proofs::Slotted::slots_mean))]
pub fn slots_mean()
    ensures { (script : List Fn) (s : Scope) (env : Env) (vs : List V) → Matches s env vs → (e : Ex) → run (slotted (roots_of script) s e) vs ≡ value_of_ex (functions_of script) env e }
{}
