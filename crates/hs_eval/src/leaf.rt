//! Nodes without parts, and slots.
ghost use Rattle.std.specs.Prelude.{◌≡◌, ◌++◌, ◌∷◌, [], IfOk, MatchOption, take, List, slice_get};
ghost use Rattle.std.specs.Option.{option_copied};
ghost use Rattle.hs_base.specs.declared.value.Value.{Value};
ghost use Rattle.rules_meaning.specs.Values.{value_of, list_of, Gives};
ghost use Rattle.rules_meaning.specs.Meaning.{empty_of, then, then_all, binary_of};
ghost use Rattle.rules_code.specs.Slots.{decode, trees, tree_at, s_bad, at_slot};
ghost use Rattle.hs_eval.specs.Founds.{out_of};
ghost use Rattle.hs_eval.specs.Evaluation.{outs_of, mirrored, slots};

use crate::binary::binary;
use crate::found::{Found, FoundAll};
use hs_base::tree::forms::{BinaryForm, EmptyForm};
use hs_base::{NoMemory, Value, ValueList, Values};
use hs_items::Items;
use rules_code::{ExprId, Node};
use std::alloc::Global;

/// The node of a number.
#[tactic(auto, using(rules_code::proofs::Arena::arena_rules))]
pub fn node_at(nodes: &Items<Node>, id: ExprId) -> Option<&Node>
    ensures { MatchOption result (tree_at nodes.now id ≡ s_bad) (λ k. tree_at nodes.now id ≡ decode (take id.0 (trees nodes.now)) k.now) }
{
    nodes.get(id.0)
}

/// `Nothing` or `[]`
#[tactic(auto, using(crate::proofs::Cases::value_forms))]
pub fn empty(form: EmptyForm) -> Value
    ensures { value_of result ≡ empty_of form }
{
    match form {
        EmptyForm::Nothing => Value::Nothing,
        EmptyForm::EmptyList => Value::List(ValueList::new()),
    }
}

/// An equal value.
fn copied(alloc: Global, value: Option<&Value>) -> Result<Found, NoMemory>
    ensures { IfOk result (λ o. out_of o ≡ at_slot (mirrored (option_copied value.entry))) }
{
    match value {
        Some(value) => Ok(Found::Value(value.copy(alloc)?)),
        None => Ok(Found::Stuck),
    }
}

/// The value of a slot.
#[tactic(auto, using(crate::proofs::Steps::outer_slot, crate::proofs::Steps::inner_slot))]
pub fn slot(alloc: Global, k: usize, outer: &Values, inner: &Values) -> Result<Found, NoMemory>
    ensures { IfOk result (λ o. out_of o ≡ at_slot (slice_get (slots outer.now inner.now) k)) }
{
    if k < outer.len() {
        copied(alloc, outer.get(k))
    } else {
        copied(alloc, inner.get(k - outer.len()))
    }
}

/// Takes the last value off.
#[tactic(auto, using(crate::proofs::Steps::off_is))]
pub fn off(values: &mut Values)
    ensures { (xs : List Value) (x : Value) → values.old ≡ xs ++ x ∷ [] → values.new ≡ xs }
{
    let _ = values.pop();
}

/// A list of values.
#[tactic(auto, using(crate::proofs::Cases::value_forms))]
pub fn listed(alloc: Global, found: FoundAll) -> Result<Found, NoMemory>
    ensures { IfOk result (λ o. out_of o ≡ then_all (outs_of found) (λ vs. Gives (list_of vs))) }
{
    match found {
        FoundAll::Throws(e) => Ok(Found::Throws(e)),
        FoundAll::Stuck => Ok(Found::Stuck),
        FoundAll::Values(values) => {
            let list = ValueList::from_vec(alloc, values.into_vec())?;
            Ok(Found::Value(Value::List(list)))
        }
    }
}

/// A form with two parts, at the value of the first and what the second gives.
pub fn closed(
    alloc: Global,
    form: BinaryForm,
    first: Value,
    second: Found,
) -> Result<Found, NoMemory>
    ensures { IfOk result (λ o. out_of o ≡ then (out_of second) (binary_of form (value_of first))) }
{
    match second {
        Found::Throws(e) => Ok(Found::Throws(e)),
        Found::Stuck => Ok(Found::Stuck),
        Found::Value(value) => binary(alloc, form, first, value),
    }
}
