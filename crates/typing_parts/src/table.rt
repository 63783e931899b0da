ghost use Rattle.std.specs.Prelude.{◌≡◌, ◌≤◌, [], ◌∷◌, ◌++◌, length, OnOk, MatchOption, take, ◌-◌};
ghost use Rattle.std.specs.Str.{bytes_eq};
ghost use Rattle.typing_parts.specs.Views.{last_named};

use crate::entry::{Entry, Sorted};
use hs_base::{NoMemory, Txt};
use hs_items::Items;
use std::alloc::Global;

/// The names of a scope, the last one behind all others.
#[derive(Drop)]
pub struct Table {
    pub items: Items<Entry>,
}

impl Table {
    pub fn new(alloc: Global) -> Table
        ensures { result.items ≡ [] }
    {
        Table {
            items: Items::new(alloc),
        }
    }

    pub fn len(&self) -> usize
        ensures { result ≡ length self.now.items }
    {
        self.items.len()
    }

    pub fn push(&mut self, e: Entry) -> Result<(), NoMemory>
        ensures { OnOk result (self.new.items ≡ self.old.items ++ e ∷ []) }
    {
        Ok(self.items.add(e)?)
    }

    /// Takes the names off that came after the first `mark`.
    pub fn back_to(&mut self, mark: usize)
        requires { mark ≤ length self.old.items }
        ensures { self.new.items ≡ take mark self.old.items }
    {
        'off: while self.len() > mark {
            self.pop();
        }
    }

    /// What the last such name is.
    pub fn look(&self, x: &Txt) -> Option<&Sorted>
        ensures { MatchOption result (last_named self.now.items x.now ≡ None) (λ r. last_named self.now.items x.now ≡ Some r.now) }
    {
        let items = self.items.as_slice();
        'back: for i in (0..items.len()).rev() {
            let e = &items[i];
            if is_name(&e.text, x) {
                return Some(&e.sort);
            }
        }
        None
    }

    /// Takes the last name off.
    pub fn pop(&mut self)
        ensures { self.new.items ≡ take (length self.old.items - 1) self.old.items }
    {
        let _ = self.items.pop();
    }
}

fn is_name(a: &Txt, b: &Txt) -> bool
    ensures { result ≡ bytes_eq a.now b.now }
{
    a.as_str() == b.as_str()
}
