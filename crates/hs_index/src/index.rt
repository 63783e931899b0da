//! A sorted table of names.
ghost use Rattle.std.specs.Prelude.{◌≡◌, ◌++◌, ◌∷◌, [], ℕ, List, OnOk, OnErr, Some, None, cond, bytes_eq};
ghost use Rattle.std.specs.Option.{option_or};
ghost use Rattle.std.specs.BTreeMap.{get_by_text};
ghost use Rattle.hs_index.specs.Indexing.{Indexes, first_among};

use hs_base::{NoMemory, Txt};
use std::alloc::Global;
use std::collections::BTreeMap;

/// Where the first of each name stands, and how many names there are.
#[derive(Drop)]
pub struct Index {
    pub firsts: BTreeMap<String, usize>,
    pub count: usize,
}

/// Puts the place of a name that has none yet.
fn put_first(
    alloc: Global,
    places: &mut BTreeMap<String, usize>,
    name: &Txt,
    place: usize,
) -> Result<(), NoMemory>
    ensures ok { OnOk result ((x : List ℕ) → get_by_text places.new x ≡ option_or (get_by_text places.old x) (cond (bytes_eq name.now x) (Some place) None)) }
    ensures err { OnErr result (places.new.entries ≡ places.old.entries) }
{
    let name = String::from_str(alloc, name.as_str())?;
    match places.entry(name) {
        Ok(entry) => {
            entry.or_insert(place);
            Ok(())
        }
        Err(_) => Err(NoMemory),
    }
}

impl Index {
    /// Of no names.
    pub fn new(alloc: Global) -> Index
        ensures { Indexes result [] }
    {
        Index {
            firsts: BTreeMap::new(alloc),
            count: 0,
        }
    }

    /// One more name behind the others. Where memory is refused, the index is of the names that it was of.
    pub fn add(&mut self, alloc: Global, name: &Txt) -> Result<(), NoMemory>
        ensures added { OnOk result ((names : List (List ℕ)) → Indexes self.old names → Indexes self.new (names ++ name.now ∷ [])) }
        ensures kept { OnErr result ((names : List (List ℕ)) → Indexes self.old names → Indexes self.new names) }
    {
        let count = self.count.checked_add(1).ok_or(NoMemory)?;
        put_first(alloc, &mut self.firsts, name, self.count)?;
        self.count = count;
        Ok(())
    }

    /// The place of the first such name.
    pub fn first(&self, name: &Txt) -> Option<usize>
        ensures { (names : List (List ℕ)) → Indexes self.now names → result ≡ first_among names name.now }
    {
        self.firsts.get(name.as_str()).copied()
    }
}
