ghost use Rattle.std.specs.Prelude.{◌≡◌, Some, None, MatchOption, IfOk};
ghost use Rattle.hs_index.specs.Indexing.{Indexes};
ghost use Rattle.typing_parts.specs.Views.{first_named, texts_of};

use crate::entry::Fun;
use crate::heads::Heads;
use hs_base::{NoMemory, Txt};
use hs_index::Index;
use hs_items::Items;
use std::alloc::Global;
use typing_table::table::TypeTable;

/// The heads of a script's definitions, and the place of the one that is judged.
#[derive(Drop)]
pub struct Funs {
    /// Their types, which those of the heads are places of.
    pub types: TypeTable,
    pub sigs: Items<Fun>,
    pub here: usize,
    /// Where the first definition of each name stands in `sigs`.
    pub index: Index,
    pub ghost indexed: { Indexes index (texts_of sigs) },
}

/// The place of the first definition of each name.
fn index_of(alloc: Global, sigs: &Items<Fun>) -> Result<Index, NoMemory>
    ensures { IfOk result (λ index. Indexes index (texts_of sigs.now)) }
{
    let heads = sigs.as_slice();
    let mut index = Index::new(alloc);
    'heads: for head in heads {
        index.add(alloc, &head.text)?;
    }
    Ok(index)
}

impl Funs {
    /// Before the first definition.
    pub fn new(alloc: Global, heads: Heads) -> Result<Funs, NoMemory>
        ensures { IfOk result (λ funs. (funs.types ≡ heads.types) × (funs.sigs ≡ heads.sigs) × (funs.here ≡ 0)) }
    {
        let Heads { types, sigs } = heads;
        let index = index_of(alloc, &sigs)?;
        Ok(Funs {
            types,
            sigs,
            here: 0,
            index,
        })
    }

    /// The first definition of a name.
    pub fn find(&self, x: &Txt) -> Option<&Fun>
        ensures { MatchOption result (first_named self.now.sigs x.now ≡ None) (λ f. first_named self.now.sigs x.now ≡ Some f.now) }
    {
        match self.index.first(x) {
            None => None,
            Some(place) => self.sigs.get(place),
        }
    }
}
