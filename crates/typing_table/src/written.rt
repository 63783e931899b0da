ghost use Rattle.std.specs.Prelude.{◌≡◌, List, IfOk};
ghost use Rattle.rules_expansion.specs.trees.Trees.{ty_of};
ghost use Rattle.typing_table.specs.Meaning.{base_of, known, type_in};

use crate::base::Base;
use crate::table::{TypeNode, TypeTable};
use crate::ty::TypeTerm;
use hs_base::{NoMemory, Ty};
use hs_items::Boxed;
use std::alloc::Global;

/// A type without parts, as it is written.
#[tactic(auto, using(rules_expansion::proofs::trees_lemmas::Equations::ty_rules))]
fn written_base(base: Base) -> Ty
    ensures { ty_of result ≡ base_of base }
{
    match base {
        Base::Unit => Ty::Unit,
        Base::Int => Ty::Int,
        Base::Bool => Ty::Bool,
        Base::Text => Ty::Text,
        Base::Thread => Ty::Thread,
        Base::Exn => Ty::Exn,
    }
}

#[cycle(written_places)]
fn boxed_at(alloc: Global, types: &TypeTable, place: usize) -> Result<Boxed<Ty>, NoMemory>
    ensures { IfOk result (λ t. ty_of t ≡ known types.now.nodes place) }
{
    let t = written_at(alloc, types, place)?;
    Ok(Boxed::new(alloc, t)?)
}

/// The type at a place, as it is written.
#[cycle(written_places)]
#[tactic(auto, using(rules_expansion::proofs::trees_lemmas::Equations::ty_rules))]
fn written_at(alloc: Global, types: &TypeTable, place: usize) -> Result<Ty, NoMemory>
    ensures { IfOk result (λ t. ty_of t ≡ known types.now.nodes place) }
{
    match types.node(place) {
        TypeNode::Base(base) => Ok(written_base(base)),
        TypeNode::Pair(a, b) => Ok(Ty::Pair(
            boxed_at(alloc, types, a)?,
            boxed_at(alloc, types, b)?,
        )),
        TypeNode::Maybe(a) => Ok(Ty::Maybe(boxed_at(alloc, types, a)?)),
        TypeNode::Either(a, b) => Ok(Ty::Either(
            boxed_at(alloc, types, a)?,
            boxed_at(alloc, types, b)?,
        )),
        TypeNode::List(a) => Ok(Ty::List(boxed_at(alloc, types, a)?)),
        TypeNode::Cell(a) => Ok(Ty::Cell(boxed_at(alloc, types, a)?)),
        TypeNode::Async(a) => Ok(Ty::Async(boxed_at(alloc, types, a)?)),
    }
}

#[cycle(written_types)]
fn boxed_written(alloc: Global, types: &TypeTable, t: &TypeTerm) -> Result<Boxed<Ty>, NoMemory>
    ensures { IfOk result (λ r. ty_of r ≡ type_in types.now.nodes t.now) }
{
    let t = to_written(alloc, types, t)?;
    Ok(Boxed::new(alloc, t)?)
}

/// A type of the checker, as it is written.
#[cycle(written_types)]
#[tactic(auto, using(rules_expansion::proofs::trees_lemmas::Equations::ty_rules, crate::proofs::Equations::type_rules))]
pub fn to_written(alloc: Global, types: &TypeTable, t: &TypeTerm) -> Result<Ty, NoMemory>
    ensures { IfOk result (λ r. ty_of r ≡ type_in types.now.nodes t.now) }
{
    match t {
        TypeTerm::Base(base) => Ok(written_base(*base)),
        TypeTerm::Pair(a, b) => Ok(Ty::Pair(
            boxed_written(alloc, types, a.get())?,
            boxed_written(alloc, types, b.get())?,
        )),
        TypeTerm::Maybe(a) => Ok(Ty::Maybe(boxed_written(alloc, types, a.get())?)),
        TypeTerm::Either(a, b) => Ok(Ty::Either(
            boxed_written(alloc, types, a.get())?,
            boxed_written(alloc, types, b.get())?,
        )),
        TypeTerm::List(a) => Ok(Ty::List(boxed_written(alloc, types, a.get())?)),
        TypeTerm::Cell(a) => Ok(Ty::Cell(boxed_written(alloc, types, a.get())?)),
        TypeTerm::Async(a) => Ok(Ty::Async(boxed_written(alloc, types, a.get())?)),
        TypeTerm::Known(place) => written_at(alloc, types, *place),
    }
}

#[cycle(types_written)]
fn boxed_type(alloc: Global, t: &Ty) -> Result<Boxed<TypeTerm>, NoMemory>
    ensures { IfOk result (λ r. (ms : List TypeNode) → type_in ms r ≡ ty_of t.now) }
{
    let t = from_written(alloc, t)?;
    Ok(Boxed::new(alloc, t)?)
}

/// A written type as one of the checker.
#[cycle(types_written)]
#[tactic(auto, using(rules_expansion::proofs::trees_lemmas::Equations::ty_rules, crate::proofs::Equations::type_rules))]
pub fn from_written(alloc: Global, t: &Ty) -> Result<TypeTerm, NoMemory>
    ensures { IfOk result (λ r. (ms : List TypeNode) → type_in ms r ≡ ty_of t.now) }
{
    match t {
        Ty::Unit => Ok(TypeTerm::Base(Base::Unit)),
        Ty::Int => Ok(TypeTerm::Base(Base::Int)),
        Ty::Bool => Ok(TypeTerm::Base(Base::Bool)),
        Ty::Text => Ok(TypeTerm::Base(Base::Text)),
        Ty::Thread => Ok(TypeTerm::Base(Base::Thread)),
        Ty::Exn => Ok(TypeTerm::Base(Base::Exn)),
        Ty::Pair(a, b) => Ok(TypeTerm::Pair(
            boxed_type(alloc, a.get())?,
            boxed_type(alloc, b.get())?,
        )),
        Ty::Maybe(a) => Ok(TypeTerm::Maybe(boxed_type(alloc, a.get())?)),
        Ty::Either(a, b) => Ok(TypeTerm::Either(
            boxed_type(alloc, a.get())?,
            boxed_type(alloc, b.get())?,
        )),
        Ty::List(a) => Ok(TypeTerm::List(boxed_type(alloc, a.get())?)),
        Ty::Cell(a) => Ok(TypeTerm::Cell(boxed_type(alloc, a.get())?)),
        Ty::Async(a) => Ok(TypeTerm::Async(boxed_type(alloc, a.get())?)),
    }
}
