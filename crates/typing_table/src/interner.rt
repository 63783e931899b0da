ghost use Rattle.std.specs.Prelude.{◌≡◌, ◌<◌, [], length, slice_get, IfOk, IfSome, Some};
ghost use Rattle.rules_expansion.specs.trees.Trees.{ty_of};
ghost use Rattle.typing_table.specs.Meaning.{Below, Grows, known};

use crate::base::Base;
use crate::table::{TypeNode, TypeTable};
use hs_base::{NoMemory, Ty};
use std::alloc::Global;
use std::collections::BTreeMap;

/// A table in the making, and where each of its nodes stands.
#[derive(Drop)]
pub struct Interner {
    pub types: TypeTable,
    places: BTreeMap<TypeNode, usize>,
}

impl Interner {
    /// Of no types.
    pub fn new(alloc: Global) -> Interner
        ensures { result.types.nodes ≡ [] }
    {
        Interner {
            types: TypeTable::new(alloc),
            places: BTreeMap::new(alloc),
        }
    }

    /// The table.
    pub fn into_types(self) -> TypeTable
        ensures { result ≡ self.types }
    {
        let Interner { types, places: _ } = self;
        types
    }

    /// The place that is kept for a node, where the node stands there.
    fn place_of(&self, node: TypeNode) -> Option<usize>
        ensures { IfSome result (λ place. slice_get self.now.types.nodes place ≡ Some node) }
    {
        let place = self.places.get(&node).copied()?;
        let found = *self.types.nodes.get(place)?;
        if found == node { Some(place) } else { None }
    }

    /// The place of a node: the one where it stands, or one behind all others.
    fn put(&mut self, node: TypeNode) -> Result<usize, NoMemory>
        requires { Below node (length self.old.types.nodes) }
        ensures { IfOk result (λ place. Grows self.old.types.nodes self.new.types.nodes × (slice_get self.new.types.nodes place ≡ Some node)) }
    {
        if let Some(place) = self.place_of(node) {
            return Ok(place);
        }
        let place = self.types.nodes.len();
        self.types.add(node)?;
        match self.places.insert(node, place) {
            Ok(_) => Ok(place),
            Err(_) => Err(NoMemory),
        }
    }

    /// The place of a written type, which an equal one that was put before has too.
    #[tactic(auto, using(rules_expansion::proofs::trees_lemmas::Equations::ty_rules))]
    pub fn intern(&mut self, t: &Ty) -> Result<usize, NoMemory>
        ensures { IfOk result (λ place. Grows self.old.types.nodes self.new.types.nodes × (place < length self.new.types.nodes) × (known self.new.types.nodes place ≡ ty_of t.now)) }
    {
        match t {
            Ty::Unit => self.put(TypeNode::Base(Base::Unit)),
            Ty::Int => self.put(TypeNode::Base(Base::Int)),
            Ty::Bool => self.put(TypeNode::Base(Base::Bool)),
            Ty::Text => self.put(TypeNode::Base(Base::Text)),
            Ty::Thread => self.put(TypeNode::Base(Base::Thread)),
            Ty::Exn => self.put(TypeNode::Base(Base::Exn)),
            Ty::Pair(a, b) => {
                let first = self.intern(a.get())?;
                let second = self.intern(b.get())?;
                self.put(TypeNode::Pair(first, second))
            }
            Ty::Maybe(a) => {
                let part = self.intern(a.get())?;
                self.put(TypeNode::Maybe(part))
            }
            Ty::Either(a, b) => {
                let first = self.intern(a.get())?;
                let second = self.intern(b.get())?;
                self.put(TypeNode::Either(first, second))
            }
            Ty::List(a) => {
                let part = self.intern(a.get())?;
                self.put(TypeNode::List(part))
            }
            Ty::Cell(a) => {
                let part = self.intern(a.get())?;
                self.put(TypeNode::Cell(part))
            }
            Ty::Async(a) => {
                let part = self.intern(a.get())?;
                self.put(TypeNode::Async(part))
            }
        }
    }
}
