//! The pure functions of a script, found by their names.
ghost use Rattle.std.specs.Prelude.{◌≡◌, ◌++◌, ◌∷◌, [], IfOk};
ghost use Rattle.std.specs.Option.{option_copied};
ghost use Rattle.hs_index.specs.Indexing.{Indexes};
ghost use Rattle.hs_nodes.specs.Finding.{texts_of, first_of};

use hs_base::{NoMemory, Txt};
use hs_index::Index;
use hs_items::Items;
use rules_code::ExprId;
use std::alloc::Global;

/// Where the body of a pure function stands.
#[derive(Drop)]
pub struct Place {
    pub text: Txt,
    pub params: usize,
    pub node: ExprId,
}

/// The pure functions of a script with the nodes of their bodies, in order.
#[derive(Drop)]
pub struct Places {
    pub all: Items<Place>,
    pub index: Index,
    pub ghost indexed: { Indexes index (texts_of all) },
}

impl Places {
    /// Of no functions.
    pub fn new(alloc: Global) -> Places
        ensures { result.all ≡ [] }
    {
        Places {
            all: Items::new(alloc),
            index: Index::new(alloc),
        }
    }

    /// One more function behind the others.
    pub fn add(self, alloc: Global, place: Place) -> Result<Places, NoMemory>
        ensures { IfOk result (λ more. more.all ≡ self.all ++ place ∷ []) }
    {
        let Places { mut all, mut index } = self;
        index.add(alloc, &place.text)?;
        all.add(place)?;
        Ok(Places { all, index })
    }

    /// The first function of a name.
    #[tactic(auto, using(crate::proofs::Found::found))]
    pub fn find(&self, x: &Txt) -> Option<&Place>
        ensures { option_copied result ≡ first_of self.now.all x.now }
    {
        let at = self.index.first(x)?;
        self.all.get(at)
    }
}
