ghost use Rattle.std.specs.Prelude.{◌≡◌, []};

use hs_base::Values;
use hs_items::Items;
use std::alloc::Global;
use std::mem;

/// A list that holds nothing, whose memory the next list of values is to have.
#[derive(Drop)]
pub struct Spare {
    list: Values,
    ghost empty: { list ≡ [] },
}

impl Spare {
    /// A list with no memory yet.
    pub fn new(alloc: Global) -> Spare {
        Spare {
            list: Items::new(alloc),
        }
    }

    /// The list, which is then another's.
    pub fn take(&mut self, alloc: Global) -> Values
        ensures { result ≡ [] }
    {
        mem::replace(&mut self.list, Items::new(alloc))
    }

    /// Drops the values of a list and keeps its memory.
    pub fn keep(&mut self, list: Values) {
        let mut list = list.into_vec();
        list.clear();
        self.list = Items::from_vec(list);
    }
}
