//! The text of the ring, the script by which the program measures itself.
//!
//! To a contract the text is the list of its bytes: two lines for each place of the ring, and two more (`specs/ring/Ring`). The one
//! promise: `ring` gives exactly that text, which has fewer bytes than a script may have. What the script prints is not said
//! here.

ghost use Rattle.conc_task.specs.ring.Ring.{RingsAreShort};

mod text;

pub use text::ring;

/// A ring of at most 4,000 threads has fewer bytes than the longest script.
#[tactic(auto, using(crate::proofs::ring_lemmas::Length::rings_are_short))]
pub fn rings_are_short()
    ensures { RingsAreShort }
{}
