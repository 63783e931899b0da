//! Statements whose blocks go on.
ghost use Rattle.std.specs.Prelude.{◌≡◌, ◌++◌, List, length, ◌<◌, slice_get, Some};

use crate::emitter::ActEmitter;
use hs_base::NoMemory;
use hs_items::Items;
use hs_nodes::names::{ScopedName, off};
use rules_code::{Act, ActId, ExprId};

/// A statement that has its nodes, before what follows it in its block.
#[derive(Clone, Copy, Debug, PartialEq, Eq)]
pub enum Pending {
    /// `x <- a`
    Bind(ActId),
    /// `let x = e`
    Let(ExprId),
    /// `a`
    Then(ActId),
}

impl Pending {
    ghost use Rattle.std.specs.Prelude.{◌≡◌};
    ghost use Rattle.hs_core.specs.Opening.{node_of};

    /// The node in front of what follows.
    fn node(self, rest: ActId) -> Act
        ensures { result ≡ node_of self rest }
    {
        match self {
            Pending::Bind(a) => Act::Bind(a, rest),
            Pending::Let(e) => Act::Let(e, rest),
            Pending::Then(a) => Act::Then(a, rest),
        }
    }
}

impl ActEmitter {
    ghost use Rattle.std.specs.Prelude.{IfOk, List};
    ghost use Rattle.rules_code.specs.CodeTrees.{Sa};
    ghost use Rattle.hs_core.specs.Emits.{Emits, DoneIn};
    ghost use Rattle.hs_core.specs.Opening.{Opened, wrap, wrap_all, Holds, HoldAll};

    /// Puts a statement in front of what follows it.
    fn wrapped(&mut self, pending: Pending, rest: ActId) -> Result<ActId, NoMemory>
        ensures { (o : Opened) (t : Sa) → IfOk result (λ id. Emits (Holds self.old pending o × DoneIn self.old rest t) self.old self.new id (λ s. wrap o t)) }
    {
        let act = pending.node(rest);
        let id = self.act(act)?;
        Ok(id)
    }

    /// Puts statements in front of a block's last action.
    pub fn closed(&mut self, pending: Items<Pending>, last: ActId) -> Result<ActId, NoMemory>
        ensures { (os : List Opened) (t : Sa) → IfOk result (λ id. Emits (HoldAll self.old pending os × DoneIn self.old last t) self.old self.new id (λ s. wrap_all os t)) }
    {
        let items = pending.as_slice();
        let mut id = last;
        'back: for i in (0..items.len()).rev() {
            let one = item(items, i);
            id = self.wrapped(one, id)?;
        }
        Ok(id)
    }
}

/// An item, by its place.
fn item(items: &[Pending], at: usize) -> Pending
    requires { at < length items.now }
    ensures { slice_get items.now at ≡ Some result }
{
    items[at]
}

/// Takes off the names that came after the first ones.
pub fn back_to(scope: &mut Items<ScopedName>, count: usize)
    ensures { (xs ys : List ScopedName) → scope.old ≡ xs ++ ys → length xs ≡ count → scope.new ≡ xs }
{
    'back: while scope.len() > count {
        off(scope);
    }
}
