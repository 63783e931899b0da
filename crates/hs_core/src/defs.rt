//! What the script defines.
ghost use Rattle.std.specs.Prelude.{◌≡◌, IfOk};
ghost use Rattle.rules_expansion.specs.trees.Programs.{script_of};
ghost use Rattle.rules_expansion.specs.Expansion.{actions_of};
ghost use Rattle.hs_index.specs.Indexing.{Indexes};
ghost use Rattle.hs_core.specs.Numbering.{names_of};

use hs_base::tree::Script;
use hs_base::{Body, NoMemory, Txt};
use hs_index::Index;
use hs_items::Items;
use hs_nodes::Places;
use std::alloc::Global;
use std::snapshot::Snapshot;

/// The pure functions of a script with the nodes of their bodies, and the names of its action functions in order.
#[derive(Drop)]
pub struct Defs {
    pub places: Places,
    pub actions: Items<Txt>,
    /// Where the first action function of each name stands in `actions`.
    pub index: Index,
    pub of: Snapshot<Script>,
    pub ghost indexed: { Indexes index actions },
}

/// A count of parameters or of functions as a code has it. More than it can hold fit in no memory that is left.
pub fn counted(count: usize) -> Result<u32, NoMemory>
    ensures { IfOk result (λ k. k ≡ count) }
{
    if count > u32::MAX as usize {
        return Err(NoMemory);
    }
    Ok(count as u32)
}

/// The names of the action functions of a script.
fn action_names(alloc: Global, script: &Script) -> Result<Items<Txt>, NoMemory>
    ensures { IfOk result (λ xs. xs ≡ names_of (actions_of (script_of script.now))) }
{
    let mut names = Items::new(alloc);
    'defs: for def in script.defs.as_slice() {
        if let Body::Action(_, _) = &def.body {
            names.add(def.name.text.copy(alloc)?)?;
        }
    }
    Ok(names)
}

/// The index of names in a row.
fn index_of(alloc: Global, names: &Items<Txt>) -> Result<Index, NoMemory>
    ensures { IfOk result (λ index. Indexes index names.now) }
{
    let mut index = Index::new(alloc);
    'names: for name in names.as_slice() {
        index.add(alloc, name)?;
    }
    Ok(index)
}

impl Defs {
    ghost use Rattle.std.specs.Prelude.{◌≡◌, IfOk};
    ghost use Rattle.rules_expansion.specs.trees.Programs.{script_of};
    ghost use Rattle.rules_expansion.specs.Expansion.{actions_of};
    ghost use Rattle.hs_core.specs.Numbering.{index_among, names_of};

    /// The definitions of a script, with the places of its pure functions.
    pub fn of(alloc: Global, script: &Script, places: Places) -> Result<Defs, NoMemory>
        ensures { IfOk result (λ d. (d.places ≡ places) × (d.actions ≡ names_of (actions_of (script_of script.now))) × (d.of.value ≡ script.now)) }
    {
        let actions = action_names(alloc, script)?;
        let index = index_of(alloc, &actions)?;
        let of = Snapshot::of(script);
        Ok(Defs {
            places,
            actions,
            index,
            of,
        })
    }

    /// The number of the first action function of a name, or of none behind the last.
    pub fn index(&self, f: &Txt) -> usize
        ensures { result ≡ index_among self.now.actions f.now }
    {
        let behind = self.actions.len();
        self.index.first(f).unwrap_or(behind)
    }

    /// The same as a code has it.
    pub fn number(&self, f: &Txt) -> Result<u32, NoMemory>
        ensures { IfOk result (λ k. k ≡ index_among self.now.actions f.now) }
    {
        let number = counted(self.index(f))?;
        Ok(number)
    }
}
