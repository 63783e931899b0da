ghost use Rattle.std.specs.Prelude.{◌≡◌};
ghost use Rattle.typing_judge.specs.Judging.{same};
ghost use Rattle.typing_table.specs.Meaning.{known, type_in};

use crate::table::{TypeNode, TypeTable};
use crate::ty::TypeTerm;

/// Whether the types at two places are the same. Where equal types have one place, it goes down one path of them at most.
fn same_places(types: &TypeTable, m: usize, n: usize) -> bool
    ensures { result ≡ same (known types.now.nodes m) (known types.now.nodes n) }
{
    if m == n {
        return true;
    }
    match (types.node(m), types.node(n)) {
        (TypeNode::Base(a), TypeNode::Base(b)) => a == b,
        (TypeNode::Pair(a, b), TypeNode::Pair(c, d)) => {
            same_places(types, a, c) && same_places(types, b, d)
        }
        (TypeNode::Maybe(a), TypeNode::Maybe(b)) => same_places(types, a, b),
        (TypeNode::Either(a, b), TypeNode::Either(c, d)) => {
            same_places(types, a, c) && same_places(types, b, d)
        }
        (TypeNode::List(a), TypeNode::List(b)) => same_places(types, a, b),
        (TypeNode::Cell(a), TypeNode::Cell(b)) => same_places(types, a, b),
        (TypeNode::Async(a), TypeNode::Async(b)) => same_places(types, a, b),
        (_, _) => false,
    }
}

/// Whether a type is the one at a place.
#[tactic(auto, using(crate::proofs::Equations::type_rules))]
fn stands_at(types: &TypeTable, t: &TypeTerm, place: usize) -> bool
    ensures { result ≡ same (type_in types.now.nodes t.now) (known types.now.nodes place) }
{
    match (t, types.node(place)) {
        (TypeTerm::Known(other), _) => same_places(types, *other, place),
        (TypeTerm::Base(a), TypeNode::Base(b)) => *a == b,
        (TypeTerm::Pair(a, b), TypeNode::Pair(c, d)) => {
            stands_at(types, a.get(), c) && stands_at(types, b.get(), d)
        }
        (TypeTerm::Maybe(a), TypeNode::Maybe(b)) => stands_at(types, a.get(), b),
        (TypeTerm::Either(a, b), TypeNode::Either(c, d)) => {
            stands_at(types, a.get(), c) && stands_at(types, b.get(), d)
        }
        (TypeTerm::List(a), TypeNode::List(b)) => stands_at(types, a.get(), b),
        (TypeTerm::Cell(a), TypeNode::Cell(b)) => stands_at(types, a.get(), b),
        (TypeTerm::Async(a), TypeNode::Async(b)) => stands_at(types, a.get(), b),
        (_, _) => false,
    }
}

/// Whether the types are the same.
#[tactic(auto, using(crate::proofs::Equations::type_rules))]
pub fn same_types(types: &TypeTable, a: &TypeTerm, b: &TypeTerm) -> bool
    ensures { result ≡ same (type_in types.now.nodes a.now) (type_in types.now.nodes b.now) }
{
    match (a, b) {
        (TypeTerm::Known(m), _) => stands_at(types, b, *m),
        (_, TypeTerm::Known(n)) => stands_at(types, a, *n),
        (TypeTerm::Base(a), TypeTerm::Base(b)) => *a == *b,
        (TypeTerm::Pair(a, b), TypeTerm::Pair(c, d)) => {
            same_types(types, a.get(), c.get()) && same_types(types, b.get(), d.get())
        }
        (TypeTerm::Maybe(a), TypeTerm::Maybe(b)) => same_types(types, a.get(), b.get()),
        (TypeTerm::Either(a, b), TypeTerm::Either(c, d)) => {
            same_types(types, a.get(), c.get()) && same_types(types, b.get(), d.get())
        }
        (TypeTerm::List(a), TypeTerm::List(b)) => same_types(types, a.get(), b.get()),
        (TypeTerm::Cell(a), TypeTerm::Cell(b)) => same_types(types, a.get(), b.get()),
        (TypeTerm::Async(a), TypeTerm::Async(b)) => same_types(types, a.get(), b.get()),
        (_, _) => false,
    }
}
