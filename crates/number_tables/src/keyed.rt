ghost use Rattle.std.specs.Prelude.{◌≡◌, ◌++◌, List, ℕ, OnOk};

use hs_base::NoMemory;
use std::alloc::Global;

/// A thing that a table finds by a list of numbers.
pub trait Keyed {
    /// Its key.
    ghost key: { Self → List ℕ };

    /// Puts the key at the end of a list. Where memory runs out a part of it may stand there.
    fn put_key(&self, alloc: Global, out: &mut Vec<u32>) -> Result<(), NoMemory>
        ensures { OnOk result (out.new.items ≡ out.old.items ++ key self.now) };
}
