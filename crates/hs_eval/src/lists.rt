//! Lists of values.
ghost use Rattle.std.specs.Prelude.{◌≡◌, ◌∷◌, [], ◌<◌, IfOk, length, slice_get};
ghost use Rattle.rules_meaning.specs.Values.{value_of, values_of};
ghost use Rattle.rules_meaning.specs.Meaning.{then_all};
ghost use Rattle.hs_eval.specs.Founds.{out_of};
ghost use Rattle.hs_eval.specs.Evaluation.{outs_of, PartedAs, operands_of, join_all, join_right};

use crate::found::{Found, FoundAll};
use crate::leaf::closed;
use hs_base::{NoMemory, Split, Value, Values};
use hs_items::Items;
use rules_code::{ExprId, NodeLink};
use std::alloc::Global;

/// A list by its first item and the rest.
#[derive(Drop)]
pub enum Parted {
    Empty,
    Of(Value, Value),
    NoList,
}

/// The first item of a list, and the rest.
#[tactic(auto, using(crate::proofs::Cases::no_list, crate::proofs::Steps::no_item, crate::proofs::Steps::first_item))]
pub fn split_first(alloc: Global, value: &Value) -> Result<Parted, NoMemory>
    ensures { IfOk result (λ p. PartedAs p (value_of value.now)) }
{
    match value {
        Value::List(items) => match items.split()? {
            Split::Empty => Ok(Parted::Empty),
            Split::Of(first, rest) => Ok(Parted::Of(first.copy(alloc)?, Value::List(rest))),
        },
        _ => Ok(Parted::NoList),
    }
}

/// Joins the operands of a chain that groups from the right.
pub fn joined(alloc: Global, links: &Items<NodeLink>, found: FoundAll) -> Result<Found, NoMemory>
    ensures { IfOk result (λ o. out_of o ≡ then_all (outs_of found) (join_all links.now)) }
{
    match found {
        FoundAll::Throws(e) => Ok(Found::Throws(e)),
        FoundAll::Stuck => Ok(Found::Stuck),
        FoundAll::Values(values) => join_values(alloc, links, values),
    }
}

/// Joins values from the right.
#[tactic(auto, using(crate::proofs::Steps::last_value, crate::proofs::Steps::nothing_joined, crate::proofs::Cases::value_forms))]
fn join_values(alloc: Global, links: &Items<NodeLink>, values: Values) -> Result<Found, NoMemory>
    ensures { IfOk result (λ o. out_of o ≡ join_all links.now (values_of values)) }
{
    let mut values = values;
    match values.pop() {
        None => Ok(Found::Stuck),
        Some(last) => join_onto(alloc, links.as_slice(), values, Found::Value(last)),
    }
}

fn link_at(links: &[NodeLink], i: usize) -> NodeLink
    requires { i < length links.now }
    ensures { slice_get links.now i ≡ Some result }
{
    links[i]
}

/// Joins values from the right, onto what stands behind them.
fn join_onto(
    alloc: Global,
    links: &[NodeLink],
    values: Values,
    last: Found,
) -> Result<Found, NoMemory>
    ensures { IfOk result (λ o. out_of o ≡ join_right links.now (values_of values) (out_of last)) }
{
    let mut values = values;
    let mut so_far = last;
    'links: for i in (0..links.len()).rev() {
        match values.pop() {
            None => return Ok(Found::Stuck),
            Some(value) => {
                let link = link_at(links, i);
                so_far = closed(alloc, link.form, value, so_far)?;
            }
        }
    }
    if values.len() == 0 {
        Ok(so_far)
    } else {
        Ok(Found::Stuck)
    }
}

/// One value.
pub fn one(alloc: Global, value: Value) -> Result<Values, NoMemory>
    ensures { IfOk result (λ vs. vs ≡ value ∷ []) }
{
    let mut values = Items::new(alloc);
    values.add(value)?;
    Ok(values)
}

/// The operands of links.
pub fn operand_ids(alloc: Global, links: &Items<NodeLink>) -> Result<Items<ExprId>, NoMemory>
    ensures { IfOk result (λ ids. ids ≡ operands_of links.now) }
{
    let mut ids = Items::new(alloc);
    'links: for link in links.as_slice() {
        ids.add(link.operand)?;
    }
    Ok(ids)
}

pub fn id_at(ids: &[ExprId], i: usize) -> ExprId
    requires { i < length ids.now }
    ensures { slice_get ids.now i ≡ Some result }
{
    ids[i]
}
