//! Forms of two numbers that stand in nodes without parts: no value is made but the answer.
//!
//! This is the quick way for what loops do most; where it answers nothing, the other modules say what the form gives.
ghost use Rattle.std.specs.Prelude.{◌≡◌, IfSome, take, slice_get};
ghost use Rattle.std.specs.Option.{option_copied};
ghost use Rattle.rules_meaning.specs.Values.{Gives, Int, Truth};
ghost use Rattle.rules_meaning.specs.Meaning.{then, binary_of, linked};
ghost use Rattle.rules_code.specs.Slots.{run, run_left, decode, trees, tree_at, links_in, at_slot};
ghost use Rattle.hs_eval.specs.Founds.{out_of};
ghost use Rattle.hs_eval.specs.Evaluation.{mirrored, part_of, slots};

use crate::found::Found;
use crate::numbers::{minus, plus, quotient, remainder, times};
use hs_base::Value;
use hs_base::tree::forms::BinaryForm;
use hs_items::Items;
use rules_code::{ExprId, Node, NodeLink};

/// What a comparison says of two numbers. None for all other forms.
fn compared(form: BinaryForm, m: i64, n: i64) -> Option<bool>
    ensures value { IfSome result (λ t. binary_of form (Int m) (Int n) ≡ Gives (Truth t)) }
    ensures link { IfSome result (λ t. linked form (Gives (Int m)) (Gives (Int n)) ≡ Gives (Truth t)) }
{
    match form {
        BinaryForm::Equal => Some(m == n),
        BinaryForm::Unequal => Some(m != n),
        BinaryForm::Less => Some(m < n),
        BinaryForm::AtMost => Some(m <= n),
        BinaryForm::Greater => Some(m > n),
        BinaryForm::AtLeast => Some(m >= n),
        _ => None,
    }
}

/// What arithmetic gives at two numbers. None for all other forms.
fn computed(form: BinaryForm, m: i64, n: i64) -> Option<Found>
    ensures value { IfSome result (λ o. out_of o ≡ binary_of form (Int m) (Int n)) }
    ensures link { IfSome result (λ o. out_of o ≡ linked form (Gives (Int m)) (Gives (Int n))) }
{
    match form {
        BinaryForm::Plus => Some(Found::Value(Value::Int(plus(m, n)))),
        BinaryForm::Minus => Some(Found::Value(Value::Int(minus(m, n)))),
        BinaryForm::Times => Some(Found::Value(Value::Int(times(m, n)))),
        BinaryForm::Div => Some(quotient(m, n)),
        BinaryForm::Mod => Some(remainder(m, n)),
        _ => None,
    }
}

/// What a form gives at two numbers. None for the forms of other values.
fn of_numbers(form: BinaryForm, m: i64, n: i64) -> Option<Found>
    ensures value { IfSome result (λ o. out_of o ≡ binary_of form (Int m) (Int n)) }
    ensures link { IfSome result (λ o. out_of o ≡ linked form (Gives (Int m)) (Gives (Int n))) }
{
    match compared(form, m, n) {
        Some(t) => Some(Found::Value(Value::Bool(t))),
        None => computed(form, m, n),
    }
}

/// The number that a value is, if it is one.
#[tactic(auto, using(crate::proofs::Cases::value_forms))]
fn number_of(value: Option<&Value>) -> Option<i64>
    ensures { IfSome result (λ m. at_slot (mirrored (option_copied value.entry)) ≡ Gives (Int m)) }
{
    match value {
        Some(Value::Int(m)) => Some(*m),
        _ => None,
    }
}

/// The number in a slot, if there is one.
fn number_in(k: usize, outer: &[Value], inner: &[Value]) -> Option<i64>
    ensures { IfSome result (λ m. at_slot (slice_get (slots outer.now inner.now) k) ≡ Gives (Int m)) }
{
    if k < outer.len() {
        number_of(outer.get(k))
    } else {
        number_of(inner.get(k - outer.len()))
    }
}

/// The number that a node without parts gives, if it gives one.
#[tactic(auto, using(crate::proofs::Operands::node_rules))]
fn number_at(
    nodes: &Items<Node>,
    above: usize,
    id: ExprId,
    outer: &[Value],
    inner: &[Value],
) -> Option<i64>
    ensures { IfSome result (λ m. run (part_of nodes.now above id) (slots outer.now inner.now) ≡ Gives (Int m)) }
{
    if id.0 >= above {
        return None;
    }
    match nodes.get(id.0) {
        Some(Node::Int(m)) => Some(*m),
        Some(Node::Slot(k)) => number_in(*k, outer, inner),
        _ => None,
    }
}

/// What a part gives with one link, where both are numbers in nodes without parts.
fn of_two(
    nodes: &Items<Node>,
    above: usize,
    first: ExprId,
    link: NodeLink,
    outer: &[Value],
    inner: &[Value],
) -> Option<Found>
    ensures value { IfSome result (λ o. out_of o ≡ then (run (part_of nodes.now above first) (slots outer.now inner.now)) (λ v. then (run (part_of nodes.now above link.operand) (slots outer.now inner.now)) (binary_of link.form v))) }
    ensures link { IfSome result (λ o. out_of o ≡ linked link.form (run (part_of nodes.now above first) (slots outer.now inner.now)) (run (part_of nodes.now above link.operand) (slots outer.now inner.now))) }
{
    let m = number_at(nodes, above, first, outer, inner)?;
    let n = number_at(nodes, above, link.operand, outer, inner)?;
    of_numbers(link.form, m, n)
}

/// What a chain with one link gives, where both are numbers in nodes without parts.
fn of_link(
    nodes: &Items<Node>,
    above: usize,
    i: ExprId,
    links: &Items<NodeLink>,
    outer: &[Value],
    inner: &[Value],
) -> Option<Found>
    ensures { IfSome result (λ o. out_of o ≡ run_left (slots outer.now inner.now) (run (part_of nodes.now above i) (slots outer.now inner.now)) (links_in (take above (trees nodes.now)) links.now)) }
{
    match links.as_slice() {
        [link] => of_two(nodes, above, i, *link, outer, inner),
        _ => None,
    }
}

/// What a node gives, where it is a form of two numbers in nodes without parts.
pub fn of_node(
    nodes: &Items<Node>,
    above: usize,
    node: &Node,
    outer: &[Value],
    inner: &[Value],
) -> Option<Found>
    ensures { IfSome result (λ o. out_of o ≡ run (decode (take above (trees nodes.now)) node.now) (slots outer.now inner.now)) }
{
    match node {
        Node::Binary(form, i, j) => {
            let link = NodeLink {
                form: *form,
                operand: *j,
            };
            of_two(nodes, above, *i, link, outer, inner)
        }
        Node::Chain(i, links) => of_link(nodes, above, *i, links, outer, inner),
        _ => None,
    }
}

/// What a comparison of two parts says, where both are numbers in nodes without parts.
fn compared_at(
    nodes: &Items<Node>,
    above: usize,
    first: ExprId,
    link: NodeLink,
    outer: &[Value],
    inner: &[Value],
) -> Option<bool>
    ensures { IfSome result (λ t. then (run (part_of nodes.now above first) (slots outer.now inner.now)) (λ v. then (run (part_of nodes.now above link.operand) (slots outer.now inner.now)) (binary_of link.form v)) ≡ Gives (Truth t)) }
{
    let m = number_at(nodes, above, first, outer, inner)?;
    let n = number_at(nodes, above, link.operand, outer, inner)?;
    compared(link.form, m, n)
}

/// What the node of a number says, where it compares two numbers in nodes without parts. The values of the slots are those of
/// `outer` and then those of `inner`.
pub fn test_at(nodes: &Items<Node>, id: ExprId, outer: &[Value], inner: &[Value]) -> Option<bool>
    ensures { IfSome result (λ t. run (tree_at nodes.now id) (slots outer.now inner.now) ≡ Gives (Truth t)) }
{
    match nodes.get(id.0) {
        Some(Node::Binary(form, i, j)) => {
            let link = NodeLink {
                form: *form,
                operand: *j,
            };
            compared_at(nodes, id.0, *i, link, outer, inner)
        }
        _ => None,
    }
}
