ghost use Rattle.std.specs.Prelude.{◌≡◌};
ghost use Rattle.typing_table.specs.Meaning.{kind_of, known, type_in};

use crate::base::Base;
use crate::table::{TypeNode, TypeTable};
use crate::ty::TypeTerm;

/// The outermost form of a type.
#[derive(Clone, Copy, Debug, PartialEq, Eq)]
pub enum TypeKind {
    Base(Base),
    Pair,
    Maybe,
    Either,
    List,
    Cell,
    Async,
}

/// The outermost form of the type at a place.
fn kind_at(types: &TypeTable, place: usize) -> TypeKind
    ensures { result ≡ kind_of (known types.now.nodes place) }
{
    match types.node(place) {
        TypeNode::Base(base) => TypeKind::Base(base),
        TypeNode::Pair(_, _) => TypeKind::Pair,
        TypeNode::Maybe(_) => TypeKind::Maybe,
        TypeNode::Either(_, _) => TypeKind::Either,
        TypeNode::List(_) => TypeKind::List,
        TypeNode::Cell(_) => TypeKind::Cell,
        TypeNode::Async(_) => TypeKind::Async,
    }
}

/// The outermost form of a type.
#[tactic(auto, using(crate::proofs::Equations::type_rules))]
pub fn kind_in(types: &TypeTable, t: &TypeTerm) -> TypeKind
    ensures { result ≡ kind_of (type_in types.now.nodes t.now) }
{
    match t {
        TypeTerm::Base(base) => TypeKind::Base(*base),
        TypeTerm::Pair(_, _) => TypeKind::Pair,
        TypeTerm::Maybe(_) => TypeKind::Maybe,
        TypeTerm::Either(_, _) => TypeKind::Either,
        TypeTerm::List(_) => TypeKind::List,
        TypeTerm::Cell(_) => TypeKind::Cell,
        TypeTerm::Async(_) => TypeKind::Async,
        TypeTerm::Known(place) => kind_at(types, *place),
    }
}
