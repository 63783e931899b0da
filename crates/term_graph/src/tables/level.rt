use crate::tables::keys::put_frame;
use hs_base::{Mask, NoMemory};
use local_steps::Frame;
use number_tables::Keyed;
use number_tables::value_keys::put;
use std::alloc::Global;

/// A frame inside a stack.
#[derive(Drop)]
pub struct Level {
    pub frame: Frame,
    /// The number of the stack round it.
    pub outer: u32,
    /// The masking state inside it.
    pub mask: Mask,
    /// How many frames there are, with this one.
    pub depth: u32,
}

impl Keyed for Level {
    ghost use Rattle.std.specs.Prelude.{◌∷◌};
    ghost use Rattle.term_graph.specs.tables.Keys.{frame_key};

    ghost key = { λ l. l.outer ∷ frame_key l.frame };

    fn put_key(&self, alloc: Global, out: &mut Vec<u32>) -> Result<(), NoMemory> {
        put(out, self.outer)?;
        put_frame(alloc, &self.frame, out)
    }
}
