//! The nodes so far, and the names of the scope.
use crate::names::ScopedName;
use crate::places::Places;
use hs_base::{NoMemory, Txt};
use hs_items::Items;
use rules_code::{ExprId, Node};
use rules_expansion::Hidden;

#[derive(Drop)]
pub struct Emitter {
    pub nodes: Items<Node>,
    pub scope: Items<ScopedName>,
}

impl Emitter {
    ghost use Rattle.std.specs.Prelude.{◌≡◌, ◌++◌, ◌∷◌, [], length, IfOk};
    ghost use Rattle.rules_code.specs.Slots.{slot_of};
    ghost use Rattle.rules_expansion.specs.Names.{Written, Added};
    ghost use Rattle.hs_nodes.specs.Names.{scope_of};
    ghost use Rattle.hs_nodes.specs.Emitting.{place_of};

    /// Adds a node, and answers its number.
    pub fn add(&mut self, node: Node) -> Result<ExprId, NoMemory>
        ensures { IfOk result (λ id. (id.0 ≡ length self.old.nodes) × (self.new.nodes ≡ self.old.nodes ++ node ∷ []) × (self.new.scope ≡ self.old.scope)) }
    {
        let id = ExprId(self.nodes.len());
        self.nodes.add(node)?;
        Ok(id)
    }

    /// The slot of a name of the script.
    pub fn slot(&self, x: &Txt) -> Option<usize>
        ensures { result ≡ slot_of (scope_of self.now.scope) (Written x.now) }
    {
        let items = self.scope.as_slice();
        'back: for i in (0..items.len()).rev() {
            if items[i].is_written(x) {
                return Some(i);
            }
        }
        None
    }

    /// The slot of an added name.
    pub fn added_slot(&self, h: Hidden) -> Option<usize>
        ensures { result ≡ slot_of (scope_of self.now.scope) (Added h) }
    {
        let items = self.scope.as_slice();
        'back: for i in (0..items.len()).rev() {
            if items[i].is_added(h) {
                return Some(i);
            }
        }
        None
    }

    /// The node of the body that a call means, or the number of the next node.
    #[tactic(auto, using(crate::proofs::Found::place_by))]
    pub fn place(&self, places: &Places, x: &Txt, count: usize) -> ExprId
        ensures { result ≡ place_of places.now.all x.now count (record { 0 = length self.now.nodes }) }
    {
        match places.find(x) {
            Some(place) if place.params == count => place.node,
            _ => ExprId(self.nodes.len()),
        }
    }
}
