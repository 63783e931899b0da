ghost use Rattle.std.specs.Prelude.{◌≡◌, IfOk};
ghost use Rattle.rules_typing.specs.Typing.{first_of, second_of, inner_of};
ghost use Rattle.typing_table.specs.Meaning.{known, type_in};

use crate::base::Base;
use crate::table::{TypeNode, TypeTable};
use crate::ty::TypeTerm;
use hs_base::NoMemory;
use std::alloc::Global;

/// What the `Maybe`, the list, the `MVar` or the `Async` at a place is of; `()` for all others.
#[tactic(auto, using(crate::proofs::Equations::type_rules))]
fn inner_at(types: &TypeTable, place: usize) -> TypeTerm
    ensures { type_in types.now.nodes result ≡ inner_of (known types.now.nodes place) }
{
    match types.node(place) {
        TypeNode::Maybe(part) => TypeTerm::Known(part),
        TypeNode::List(part) => TypeTerm::Known(part),
        TypeNode::Cell(part) => TypeTerm::Known(part),
        TypeNode::Async(part) => TypeTerm::Known(part),
        TypeNode::Base(_) => TypeTerm::Base(Base::Unit),
        TypeNode::Pair(_, _) => TypeTerm::Base(Base::Unit),
        TypeNode::Either(_, _) => TypeTerm::Base(Base::Unit),
    }
}

/// What a `Maybe`, a list, an `MVar` or an `Async` is of; `()` for all others.
#[tactic(auto, using(crate::proofs::Equations::type_rules))]
pub fn inner_part(alloc: Global, types: &TypeTable, a: &TypeTerm) -> Result<TypeTerm, NoMemory>
    ensures { IfOk result (λ b. type_in types.now.nodes b ≡ inner_of (type_in types.now.nodes a.now)) }
{
    match a {
        TypeTerm::Maybe(b) => Ok(b.get().copy(alloc)?),
        TypeTerm::List(b) => Ok(b.get().copy(alloc)?),
        TypeTerm::Cell(b) => Ok(b.get().copy(alloc)?),
        TypeTerm::Async(b) => Ok(b.get().copy(alloc)?),
        TypeTerm::Base(_) => Ok(TypeTerm::Base(Base::Unit)),
        TypeTerm::Pair(_, _) => Ok(TypeTerm::Base(Base::Unit)),
        TypeTerm::Either(_, _) => Ok(TypeTerm::Base(Base::Unit)),
        TypeTerm::Known(place) => Ok(inner_at(types, *place)),
    }
}

/// The first part of the pair or the `Either` at a place; `()` for all others.
#[tactic(auto, using(crate::proofs::Equations::type_rules))]
fn first_at(types: &TypeTable, place: usize) -> TypeTerm
    ensures { type_in types.now.nodes result ≡ first_of (known types.now.nodes place) }
{
    match types.node(place) {
        TypeNode::Pair(part, _) => TypeTerm::Known(part),
        TypeNode::Either(part, _) => TypeTerm::Known(part),
        TypeNode::Base(_) => TypeTerm::Base(Base::Unit),
        TypeNode::Maybe(_) => TypeTerm::Base(Base::Unit),
        TypeNode::List(_) => TypeTerm::Base(Base::Unit),
        TypeNode::Cell(_) => TypeTerm::Base(Base::Unit),
        TypeNode::Async(_) => TypeTerm::Base(Base::Unit),
    }
}

/// The first part of a pair or an `Either`; `()` for all others.
#[tactic(auto, using(crate::proofs::Equations::type_rules))]
pub fn first_part(alloc: Global, types: &TypeTable, a: &TypeTerm) -> Result<TypeTerm, NoMemory>
    ensures { IfOk result (λ b. type_in types.now.nodes b ≡ first_of (type_in types.now.nodes a.now)) }
{
    match a {
        TypeTerm::Pair(b, _) => Ok(b.get().copy(alloc)?),
        TypeTerm::Either(b, _) => Ok(b.get().copy(alloc)?),
        TypeTerm::Base(_) => Ok(TypeTerm::Base(Base::Unit)),
        TypeTerm::Maybe(_) => Ok(TypeTerm::Base(Base::Unit)),
        TypeTerm::List(_) => Ok(TypeTerm::Base(Base::Unit)),
        TypeTerm::Cell(_) => Ok(TypeTerm::Base(Base::Unit)),
        TypeTerm::Async(_) => Ok(TypeTerm::Base(Base::Unit)),
        TypeTerm::Known(place) => Ok(first_at(types, *place)),
    }
}

/// The second part of the pair or the `Either` at a place; `()` for all others.
#[tactic(auto, using(crate::proofs::Equations::type_rules))]
fn second_at(types: &TypeTable, place: usize) -> TypeTerm
    ensures { type_in types.now.nodes result ≡ second_of (known types.now.nodes place) }
{
    match types.node(place) {
        TypeNode::Pair(_, part) => TypeTerm::Known(part),
        TypeNode::Either(_, part) => TypeTerm::Known(part),
        TypeNode::Base(_) => TypeTerm::Base(Base::Unit),
        TypeNode::Maybe(_) => TypeTerm::Base(Base::Unit),
        TypeNode::List(_) => TypeTerm::Base(Base::Unit),
        TypeNode::Cell(_) => TypeTerm::Base(Base::Unit),
        TypeNode::Async(_) => TypeTerm::Base(Base::Unit),
    }
}

/// The second part of a pair or an `Either`; `()` for all others.
#[tactic(auto, using(crate::proofs::Equations::type_rules))]
pub fn second_part(alloc: Global, types: &TypeTable, a: &TypeTerm) -> Result<TypeTerm, NoMemory>
    ensures { IfOk result (λ b. type_in types.now.nodes b ≡ second_of (type_in types.now.nodes a.now)) }
{
    match a {
        TypeTerm::Pair(_, b) => Ok(b.get().copy(alloc)?),
        TypeTerm::Either(_, b) => Ok(b.get().copy(alloc)?),
        TypeTerm::Base(_) => Ok(TypeTerm::Base(Base::Unit)),
        TypeTerm::Maybe(_) => Ok(TypeTerm::Base(Base::Unit)),
        TypeTerm::List(_) => Ok(TypeTerm::Base(Base::Unit)),
        TypeTerm::Cell(_) => Ok(TypeTerm::Base(Base::Unit)),
        TypeTerm::Async(_) => Ok(TypeTerm::Base(Base::Unit)),
        TypeTerm::Known(place) => Ok(second_at(types, *place)),
    }
}
