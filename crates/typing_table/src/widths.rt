ghost use Rattle.std.specs.Prelude.{◌≡◌, ◌+◌, ◌<◌, ltb, MatchOption};
ghost use Rattle.rules_expansion.specs.trees.Trees.{ty_of};
ghost use Rattle.rules_typing.specs.Typing.{nodes};
ghost use Rattle.typing_table.specs.Meaning.{known, type_in};

use crate::table::{TypeNode, TypeTable};
use crate::ty::TypeTerm;
use hs_base::Ty;

/// What is left of a number after one for each node of the type at a place, where there are so many.
#[tactic(auto, using(crate::proofs::Counts::nodes_some))]
fn spend_at(types: &TypeTable, place: usize, left: u32) -> Option<u32>
    ensures { MatchOption result (left < nodes (known types.now.nodes place)) (λ r. r + nodes (known types.now.nodes place) ≡ left) }
{
    if left == 0 {
        return None;
    }
    match types.node(place) {
        TypeNode::Base(_) => Some(left - 1),
        TypeNode::Pair(a, b) => {
            let rest = spend_at(types, a, left - 1)?;
            spend_at(types, b, rest)
        }
        TypeNode::Maybe(a) => spend_at(types, a, left - 1),
        TypeNode::Either(a, b) => {
            let rest = spend_at(types, a, left - 1)?;
            spend_at(types, b, rest)
        }
        TypeNode::List(a) => spend_at(types, a, left - 1),
        TypeNode::Cell(a) => spend_at(types, a, left - 1),
        TypeNode::Async(a) => spend_at(types, a, left - 1),
    }
}

/// What is left of a number after one for each node, where there are so many.
#[tactic(auto, using(crate::proofs::Counts::nodes_some, crate::proofs::Equations::type_rules))]
fn spend(types: &TypeTable, t: &TypeTerm, left: u32) -> Option<u32>
    ensures { MatchOption result (left < nodes (type_in types.now.nodes t.now)) (λ r. r + nodes (type_in types.now.nodes t.now) ≡ left) }
{
    if left == 0 {
        return None;
    }
    match t {
        TypeTerm::Base(_) => Some(left - 1),
        TypeTerm::Pair(a, b) => {
            let rest = spend(types, a.get(), left - 1)?;
            spend(types, b.get(), rest)
        }
        TypeTerm::Maybe(a) => spend(types, a.get(), left - 1),
        TypeTerm::Either(a, b) => {
            let rest = spend(types, a.get(), left - 1)?;
            spend(types, b.get(), rest)
        }
        TypeTerm::List(a) => spend(types, a.get(), left - 1),
        TypeTerm::Cell(a) => spend(types, a.get(), left - 1),
        TypeTerm::Async(a) => spend(types, a.get(), left - 1),
        TypeTerm::Known(place) => spend_at(types, *place, left),
    }
}

/// Whether a type has more than 64 nodes. It looks at 64 of them at most.
pub fn is_wide(types: &TypeTable, t: &TypeTerm) -> bool
    ensures { result ≡ ltb 64 (nodes (type_in types.now.nodes t.now)) }
{
    match spend(types, t, 64) {
        None => true,
        Some(_) => false,
    }
}

/// What is left of a number after one for each node of a written type, where there are so many.
#[tactic(auto, using(rules_expansion::proofs::trees_lemmas::Equations::ty_rules))]
fn spend_written(t: &Ty, left: u32) -> Option<u32>
    ensures { MatchOption result (left < nodes (ty_of t.now)) (λ r. r + nodes (ty_of t.now) ≡ left) }
{
    if left == 0 {
        return None;
    }
    match t {
        Ty::Unit => Some(left - 1),
        Ty::Int => Some(left - 1),
        Ty::Bool => Some(left - 1),
        Ty::Text => Some(left - 1),
        Ty::Thread => Some(left - 1),
        Ty::Exn => Some(left - 1),
        Ty::Pair(a, b) => {
            let rest = spend_written(a.get(), left - 1)?;
            spend_written(b.get(), rest)
        }
        Ty::Maybe(a) => spend_written(a.get(), left - 1),
        Ty::Either(a, b) => {
            let rest = spend_written(a.get(), left - 1)?;
            spend_written(b.get(), rest)
        }
        Ty::List(a) => spend_written(a.get(), left - 1),
        Ty::Cell(a) => spend_written(a.get(), left - 1),
        Ty::Async(a) => spend_written(a.get(), left - 1),
    }
}

/// Whether a written type has more than 64 nodes. It looks at 64 of them at most.
pub fn is_wide_written(t: &Ty) -> bool
    ensures { result ≡ ltb 64 (nodes (ty_of t.now)) }
{
    match spend_written(t, 64) {
        None => true,
        Some(_) => false,
    }
}
