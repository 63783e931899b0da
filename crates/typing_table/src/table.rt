ghost use Rattle.std.specs.Prelude.{◌≡◌, [], ◌∷◌, ◌++◌, length, OnErr, OnOk};
ghost use Rattle.typing_table.specs.Meaning.{Below, Ordered, known, node_type, types_at};

use crate::base::Base;
use hs_base::NoMemory;
use hs_items::Items;
use std::alloc::Global;

/// The form of a type over its parts' places in a table.
#[derive(Clone, Copy, Debug, PartialEq, Eq, PartialOrd, Ord)]
pub enum TypeNode {
    Base(Base),
    Pair(usize, usize),
    Maybe(usize),
    Either(usize, usize),
    List(usize),
    Cell(usize),
    Async(usize),
}

/// Types by their places, each behind its parts.
#[derive(Drop)]
pub struct TypeTable {
    pub nodes: Items<TypeNode>,
    pub ghost ordered: { Ordered nodes },
}

impl TypeTable {
    /// None.
    pub fn new(alloc: Global) -> TypeTable
        ensures { result.nodes ≡ [] }
    {
        TypeTable {
            nodes: Items::new(alloc),
        }
    }

    /// The node at a place; behind the end stands `()`.
    pub fn node(&self, place: usize) -> TypeNode
        ensures node { node_type (types_at self.now.nodes) result ≡ known self.now.nodes place }
        ensures below { Below result place }
    {
        match self.nodes.get(place) {
            None => TypeNode::Base(Base::Unit),
            Some(node) => *node,
        }
    }

    /// One more type behind the others.
    pub fn add(&mut self, node: TypeNode) -> Result<(), NoMemory>
        requires { Below node (length self.old.nodes) }
        ensures added { OnOk result (self.new.nodes ≡ self.old.nodes ++ node ∷ []) }
        ensures kept { OnErr result (self.new.nodes ≡ self.old.nodes) }
    {
        Ok(self.nodes.add(node)?)
    }
}
