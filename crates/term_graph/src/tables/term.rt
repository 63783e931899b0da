use crate::tables::keys::put_part;
use hs_base::NoMemory;
use local_steps::Active;
use number_tables::Keyed;
use number_tables::value_keys::put;
use std::alloc::Global;

/// An active part inside the stack of a number.
#[derive(Drop)]
pub struct Term {
    pub part: Active,
    pub stack: u32,
}

impl Keyed for Term {
    ghost use Rattle.std.specs.Prelude.{◌∷◌};
    ghost use Rattle.term_graph.specs.tables.Keys.{part_key};

    ghost key = { λ t. t.stack ∷ part_key t.part };

    fn put_key(&self, _alloc: Global, out: &mut Vec<u32>) -> Result<(), NoMemory> {
        put(out, self.stack)?;
        put_part(&self.part, out)
    }
}
