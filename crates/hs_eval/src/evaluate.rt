//! Evaluation of numbered nodes.
ghost use Rattle.std.specs.Prelude.{◌≡◌, ◌++◌, ◌∷◌, [], IfOk, cond};
ghost use Rattle.rules_meaning.specs.Values.{value_of, values_of};
ghost use Rattle.rules_meaning.specs.Meaning.{then, then_all, linked, binary_of, on_truth, on_maybe, on_either, on_list, on_pair};
ghost use Rattle.rules_code.specs.Slots.{run, run_all, run_left, run_right, decode, tree_at, trees_in, links_in};
ghost use Rattle.hs_eval.specs.Founds.{out_of};
ghost use Rattle.hs_eval.specs.Evaluation.{outs_of, slots, after, with_values};
ghost use Rattle.hs_eval.specs.Evaluators.{run_part, slots_of, trees_below};

use crate::forms::{limited, side, unary};
use crate::found::{Found, FoundAll};
use crate::leaf::{closed, empty, listed, node_at, off, slot};
use crate::lists::{Parted, id_at, joined, one, operand_ids, split_first};
use crate::quick::of_node;
use crate::read::as_truth;
use hs_base::tree::forms::BinaryForm;
use hs_base::{NoMemory, Value, Values};
use hs_items::Items;
use rules_code::{ExprId, Node, NodeLink};
use std::alloc::Global;

/// What the node of a number gives, where the values of the slots are those of `outer` and then those of `inner`. `inner` is
/// as before afterwards, if there is an answer.
pub fn eval_at(
    alloc: Global,
    nodes: &Items<Node>,
    id: ExprId,
    outer: &Values,
    inner: &mut Values,
) -> Result<Found, NoMemory>
    ensures { IfOk result (λ o. (out_of o ≡ run (tree_at nodes.now id) (slots outer.now inner.old)) × (inner.new ≡ inner.old)) }
{
    let evaluator = Evaluator {
        alloc,
        nodes,
        outer,
    };
    evaluator.node(id, inner)
}

/// Evaluates the nodes of a code, where the first slots have the values `outer`.
#[derive(Clone, Copy)]
struct Evaluator<'a> {
    alloc: Global,
    nodes: &'a Items<Node>,
    outer: &'a Values,
}

impl Evaluator<'_> {
    /// What the node of a number gives, where the slots behind those of `outer` have the values `inner`.
    #[cycle(eval)]
    #[tactic(auto, using(rules_code::proofs::Arena::arena_rules))]
    fn node(self, id: ExprId, inner: &mut Values) -> Result<Found, NoMemory>
        ensures { IfOk result (λ o. (out_of o ≡ run (tree_at self.entry.nodes.now id) (slots_of self.entry inner.old)) × (inner.new ≡ inner.old)) }
    {
        match node_at(self.nodes, id) {
            None => Ok(Found::Stuck),
            Some(node) => match of_node(
                self.nodes,
                id.0,
                node,
                self.outer.as_slice(),
                inner.as_slice(),
            ) {
                Some(found) => Ok(found),
                None => self.step(id.0, node, inner),
            },
        }
    }

    /// A part of a node, whose number is lower.
    #[cycle(eval)]
    #[tactic(auto, using(rules_code::proofs::Arena::arena_rules))]
    fn part(self, above: usize, id: ExprId, inner: &mut Values) -> Result<Found, NoMemory>
        ensures { IfOk result (λ o. (out_of o ≡ run_part self.entry above id (slots_of self.entry inner.old)) × (inner.new ≡ inner.old)) }
    {
        if id.0 < above {
            self.node(id, inner)
        } else {
            Ok(Found::Stuck)
        }
    }

    /// A part with one more value.
    #[cycle(eval)]
    #[tactic(auto, using(crate::proofs::Steps::push_rules))]
    fn with_one(
        self,
        above: usize,
        id: ExprId,
        value: Value,
        inner: &mut Values,
    ) -> Result<Found, NoMemory>
        ensures { IfOk result (λ o. (out_of o ≡ run_part self.entry above id (slots_of self.entry inner.old ++ value_of value ∷ [])) × (inner.new ≡ inner.old)) }
    {
        inner.add(value)?;
        let found = self.part(above, id, inner)?;
        off(inner);
        Ok(found)
    }

    /// A part with two more values.
    #[cycle(eval)]
    #[tactic(auto, using(crate::proofs::Steps::push_rules))]
    fn with_two(
        self,
        above: usize,
        id: ExprId,
        first: Value,
        second: Value,
        inner: &mut Values,
    ) -> Result<Found, NoMemory>
        ensures { IfOk result (λ o. (out_of o ≡ run_part self.entry above id ((slots_of self.entry inner.old ++ value_of first ∷ []) ++ value_of second ∷ [])) × (inner.new ≡ inner.old)) }
    {
        inner.add(first)?;
        let found = self.with_one(above, id, second, inner)?;
        off(inner);
        Ok(found)
    }

    /// One link of a chain that groups from the left.
    #[cycle(eval)]
    #[tactic(auto, using(crate::proofs::Cases::value_forms, crate::proofs::Steps::linked_rules))]
    fn link(
        self,
        above: usize,
        so_far: Found,
        link: NodeLink,
        inner: &mut Values,
    ) -> Result<Found, NoMemory>
        ensures { IfOk result (λ o. (out_of o ≡ linked link.form (out_of so_far) (run_part self.entry above link.operand (slots_of self.entry inner.old))) × (inner.new ≡ inner.old)) }
    {
        match so_far {
            Found::Throws(e) => Ok(Found::Throws(e)),
            Found::Stuck => Ok(Found::Stuck),
            Found::Value(value) => match link.form {
                BinaryForm::And => match as_truth(&value) {
                    None => Ok(Found::Stuck),
                    Some(true) => self.part(above, link.operand, inner),
                    Some(false) => Ok(Found::Value(Value::Bool(false))),
                },
                BinaryForm::Or => match as_truth(&value) {
                    None => Ok(Found::Stuck),
                    Some(true) => Ok(Found::Value(Value::Bool(true))),
                    Some(false) => self.part(above, link.operand, inner),
                },
                _ => self.second(above, link.form, value, link.operand, inner),
            },
        }
    }

    /// The second part of a form with two, and the form.
    #[cycle(eval)]
    fn second(
        self,
        above: usize,
        form: BinaryForm,
        value: Value,
        id: ExprId,
        inner: &mut Values,
    ) -> Result<Found, NoMemory>
        ensures { IfOk result (λ o. (out_of o ≡ then (run_part self.entry above id (slots_of self.entry inner.old)) (binary_of form (value_of value))) × (inner.new ≡ inner.old)) }
    {
        let found = self.part(above, id, inner)?;
        closed(self.alloc, form, value, found)
    }

    /// A chain that groups from the left.
    #[cycle(eval)]
    fn chain(
        self,
        above: usize,
        first: Found,
        links: &Items<NodeLink>,
        inner: &mut Values,
    ) -> Result<Found, NoMemory>
        ensures { IfOk result (λ o. (out_of o ≡ run_left (slots_of self.entry inner.old) (out_of first) (links_in (trees_below self.entry above) links.now)) × (inner.new ≡ inner.old)) }
    {
        let mut so_far = first;
        'links: for next in links.as_slice() {
            so_far = self.link(above, so_far, *next, inner)?;
        }
        Ok(so_far)
    }

    /// These values, and then those of some parts.
    #[cycle(eval)]
    fn all(
        self,
        above: usize,
        before: Values,
        ids: &Items<ExprId>,
        inner: &mut Values,
    ) -> Result<FoundAll, NoMemory>
        ensures { IfOk result (λ o. (outs_of o ≡ with_values (values_of before) (run_all (trees_in (trees_below self.entry above) ids.now) (slots_of self.entry inner.old))) × (inner.new ≡ inner.old)) }
    {
        let mut values = before;
        'each: for i in 0..ids.len() {
            let id = id_at(ids.as_slice(), i);
            match self.part(above, id, inner)? {
                Found::Throws(e) => return Ok(FoundAll::Throws(e)),
                Found::Stuck => return Ok(FoundAll::Stuck),
                Found::Value(value) => values.add(value)?,
            }
        }
        Ok(FoundAll::Values(values))
    }

    /// What follows the value of a node's first part.
    #[cycle(eval)]
    #[tactic(auto, using(crate::proofs::Steps::after_other, crate::proofs::Cases::value_forms))]
    fn go_on(
        self,
        above: usize,
        node: &Node,
        value: Value,
        inner: &mut Values,
    ) -> Result<Found, NoMemory>
        ensures { IfOk result (λ o. (out_of o ≡ after (trees_below self.entry above) node.now (slots_of self.entry inner.old) (value_of value)) × (inner.new ≡ inner.old)) }
    {
        match node {
            Node::Unary(form, _) => unary(self.alloc, *form, value),
            Node::Side(form, _) => Ok(Found::Value(side(self.alloc, *form, value)?)),
            Node::Binary(form, _, j) => self.second(above, *form, value, *j, inner),
            Node::If(_, i, j) => self.choice(above, *i, *j, value, inner),
            Node::Let(_, j) => self.with_one(above, *j, value, inner),
            Node::CaseMaybe(_, i, j) => self.maybe(above, *i, *j, value, inner),
            Node::CaseEither(_, i, j) => self.either(above, *i, *j, value, inner),
            Node::CaseList(_, i, j) => self.list(above, *i, *j, value, inner),
            Node::CasePair(_, i) => self.pair(above, *i, value, inner),
            _ => Ok(Found::Stuck),
        }
    }

    /// `if` at the value of its test.
    #[cycle(eval)]
    fn choice(
        self,
        above: usize,
        i: ExprId,
        j: ExprId,
        value: Value,
        inner: &mut Values,
    ) -> Result<Found, NoMemory>
        ensures { IfOk result (λ o. (out_of o ≡ on_truth (λ t. cond t (run_part self.entry above i (slots_of self.entry inner.old)) (run_part self.entry above j (slots_of self.entry inner.old))) (value_of value)) × (inner.new ≡ inner.old)) }
    {
        match as_truth(&value) {
            None => Ok(Found::Stuck),
            Some(true) => self.part(above, i, inner),
            Some(false) => self.part(above, j, inner),
        }
    }

    /// `case` of a Maybe.
    #[cycle(eval)]
    #[tactic(auto, using(crate::proofs::Cases::no_maybe, crate::proofs::Cases::value_forms))]
    fn maybe(
        self,
        above: usize,
        i: ExprId,
        j: ExprId,
        value: Value,
        inner: &mut Values,
    ) -> Result<Found, NoMemory>
        ensures { IfOk result (λ o. (out_of o ≡ on_maybe (run_part self.entry above i (slots_of self.entry inner.old)) (λ w. run_part self.entry above j (slots_of self.entry inner.old ++ w ∷ [])) (value_of value)) × (inner.new ≡ inner.old)) }
    {
        match &value {
            Value::Nothing => self.part(above, i, inner),
            Value::Just(a) => self.with_one(above, j, a.get().copy(self.alloc)?, inner),
            _ => Ok(Found::Stuck),
        }
    }

    /// `case` of an Either.
    #[cycle(eval)]
    #[tactic(auto, using(crate::proofs::Cases::no_either, crate::proofs::Cases::value_forms))]
    fn either(
        self,
        above: usize,
        i: ExprId,
        j: ExprId,
        value: Value,
        inner: &mut Values,
    ) -> Result<Found, NoMemory>
        ensures { IfOk result (λ o. (out_of o ≡ on_either (λ w. run_part self.entry above i (slots_of self.entry inner.old ++ w ∷ [])) (λ w. run_part self.entry above j (slots_of self.entry inner.old ++ w ∷ [])) (value_of value)) × (inner.new ≡ inner.old)) }
    {
        match &value {
            Value::Left(a) => self.with_one(above, i, a.get().copy(self.alloc)?, inner),
            Value::Right(a) => self.with_one(above, j, a.get().copy(self.alloc)?, inner),
            _ => Ok(Found::Stuck),
        }
    }

    /// `case` of a list.
    #[cycle(eval)]
    fn list(
        self,
        above: usize,
        i: ExprId,
        j: ExprId,
        value: Value,
        inner: &mut Values,
    ) -> Result<Found, NoMemory>
        ensures { IfOk result (λ o. (out_of o ≡ on_list (run_part self.entry above i (slots_of self.entry inner.old)) (λ w u. run_part self.entry above j ((slots_of self.entry inner.old ++ w ∷ []) ++ u ∷ [])) (value_of value)) × (inner.new ≡ inner.old)) }
    {
        match split_first(self.alloc, &value)? {
            Parted::Empty => self.part(above, i, inner),
            Parted::Of(first, rest) => self.with_two(above, j, first, rest, inner),
            Parted::NoList => Ok(Found::Stuck),
        }
    }

    /// `case` of a pair.
    #[cycle(eval)]
    #[tactic(auto, using(crate::proofs::Cases::no_pair, crate::proofs::Cases::value_forms))]
    fn pair(
        self,
        above: usize,
        i: ExprId,
        value: Value,
        inner: &mut Values,
    ) -> Result<Found, NoMemory>
        ensures { IfOk result (λ o. (out_of o ≡ on_pair (λ w u. run_part self.entry above i ((slots_of self.entry inner.old ++ w ∷ []) ++ u ∷ [])) (value_of value)) × (inner.new ≡ inner.old)) }
    {
        match &value {
            Value::Pair(a, b) => self.with_two(
                above,
                i,
                a.get().copy(self.alloc)?,
                b.get().copy(self.alloc)?,
                inner,
            ),
            _ => Ok(Found::Stuck),
        }
    }

    /// A node's first part, and what follows.
    #[cycle(eval)]
    fn first(
        self,
        above: usize,
        id: ExprId,
        node: &Node,
        inner: &mut Values,
    ) -> Result<Found, NoMemory>
        ensures { IfOk result (λ o. (out_of o ≡ then (run_part self.entry above id (slots_of self.entry inner.old)) (after (trees_below self.entry above) node.now (slots_of self.entry inner.old))) × (inner.new ≡ inner.old)) }
    {
        match self.part(above, id, inner)? {
            Found::Throws(e) => Ok(Found::Throws(e)),
            Found::Stuck => Ok(Found::Stuck),
            Found::Value(value) => self.go_on(above, node, value, inner),
        }
    }

    /// A chain that groups from the right.
    #[cycle(eval)]
    #[tactic(auto, using(crate::proofs::Steps::right_rules))]
    fn conses(
        self,
        above: usize,
        id: ExprId,
        links: &Items<NodeLink>,
        inner: &mut Values,
    ) -> Result<Found, NoMemory>
        ensures { IfOk result (λ o. (out_of o ≡ run_right (slots_of self.entry inner.old) (run_part self.entry above id (slots_of self.entry inner.old)) (links_in (trees_below self.entry above) links.now)) × (inner.new ≡ inner.old)) }
    {
        match self.part(above, id, inner)? {
            Found::Throws(e) => Ok(Found::Throws(e)),
            Found::Stuck => Ok(Found::Stuck),
            Found::Value(value) => {
                let ids = operand_ids(self.alloc, links)?;
                let found = self.all(above, one(self.alloc, value)?, &ids, inner)?;
                joined(self.alloc, links, found)
            }
        }
    }

    /// A call of a pure function.
    #[cycle(eval)]
    fn call(
        self,
        above: usize,
        body: ExprId,
        ids: &Items<ExprId>,
        inner: &mut Values,
    ) -> Result<Found, NoMemory>
        ensures { IfOk result (λ o. (out_of o ≡ then_all (run_all (trees_in (trees_below self.entry above) ids.now) (slots_of self.entry inner.old)) (run_part self.entry above body)) × (inner.new ≡ inner.old)) }
    {
        match self.all(above, Items::new(self.alloc), ids, inner)? {
            FoundAll::Throws(e) => Ok(Found::Throws(e)),
            FoundAll::Stuck => Ok(Found::Stuck),
            FoundAll::Values(values) => {
                let callee = Evaluator {
                    alloc: self.alloc,
                    nodes: self.nodes,
                    outer: &values,
                };
                let mut bound = Items::new(self.alloc);
                let found = callee.part(above, body, &mut bound)?;
                Ok(found)
            }
        }
    }

    /// A node, of which the parts have lower numbers.
    #[cycle(eval)]
    #[tactic(auto, using(crate::proofs::Cases::value_forms))]
    fn step(self, above: usize, node: &Node, inner: &mut Values) -> Result<Found, NoMemory>
        ensures { IfOk result (λ o. (out_of o ≡ run (decode (trees_below self.entry above) node.now) (slots_of self.entry inner.old)) × (inner.new ≡ inner.old)) }
    {
        match node {
            Node::Int(m) => Ok(Found::Value(Value::Int(*m))),
            Node::Text(text) => Ok(limited(text.copy(self.alloc)?)),
            Node::Bool(t) => Ok(Found::Value(Value::Bool(*t))),
            Node::Exn(e) => Ok(Found::Value(Value::Exn(e.copy(self.alloc)?))),
            Node::Unit => Ok(Found::Value(Value::Unit)),
            Node::Empty(form) => Ok(Found::Value(empty(*form))),
            Node::Slot(k) => slot(self.alloc, *k, self.outer, inner),
            Node::Unary(_, i) => self.first(above, *i, node, inner),
            Node::Side(_, i) => self.first(above, *i, node, inner),
            Node::Binary(_, i, _) => self.first(above, *i, node, inner),
            Node::Chain(i, links) => {
                let found = self.part(above, *i, inner)?;
                self.chain(above, found, links, inner)
            }
            Node::Conses(i, links) => self.conses(above, *i, links, inner),
            Node::List(ids) => {
                let found = self.all(above, Items::new(self.alloc), ids, inner)?;
                listed(self.alloc, found)
            }
            Node::If(i, _, _) => self.first(above, *i, node, inner),
            Node::Let(i, _) => self.first(above, *i, node, inner),
            Node::CaseMaybe(i, _, _) => self.first(above, *i, node, inner),
            Node::CaseEither(i, _, _) => self.first(above, *i, node, inner),
            Node::CaseList(i, _, _) => self.first(above, *i, node, inner),
            Node::CasePair(i, _) => self.first(above, *i, node, inner),
            Node::Call(body, ids) => self.call(above, *body, ids, inner),
        }
    }
}
