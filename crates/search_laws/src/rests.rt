//! Eager local rules of states with slots, which a search over all schedules of a script may take at once. This module has no
//! code: each public function with an empty body carries laws as its contract, so that a caller may use them and a reader
//! find them.
//!
//! To a contract an eager move (`specs/rests/Rests.antt`) is one local rule of one thread of a state with slots, eager by that
//! thread's term as `term_graph/specs/Eager.antt` says, and `EagerMoves` is a chain of them.
//!
//! Its promise: where a state with slots stands for the state of a run of an accepted script, a chain of eager moves from it
//! is as long a chain of eager steps of that state, along entries that are legal and print nothing, and what it comes to
//! stands for what they come to. Which eager moves are taken, and when there is none left, is left to the crate that
//! searches.

ghost use Rattle.std.specs.Prelude.{◌≡◌, ℕ, List, Some};
ghost use Rattle.hs_rules.specs.declared.entry.Entry.TheVariants.{Local};
ghost use Rattle.rules_code.specs.CodeTrees.{SlottedFunction};
ghost use Rattle.slot_states.specs.SlotStates.{SlotState};
ghost use Rattle.slot_states.specs.entering.Entering.{next};
ghost use Rattle.search_laws.specs.time.WithoutTime.{untimed};
ghost use Rattle.search_laws.specs.rests.Rests.{EagerMove, EagerMoves};
ghost use Rattle.search_laws.specs.rests.MoveLaws.{EagerMovesAreEagerSteps};

/// A chain of eager moves is as long a chain of eager steps of each state that is stood for. They are Locals of one step, go on
/// the run, and print nothing.
pub fn eager_moves_are_eager_steps()
    ensures { EagerMovesAreEagerSteps }
{}

/// An eager move is what `next` makes of a Local of one step.
pub fn eager_moves_are_entries()
    ensures { (funs : List SlottedFunction) (x y : SlotState) (m : EagerMove funs x y) → next funs x (Local m.number 1) ≡ Some y }
{}

/// A chain of eager moves from a state without time is one from the state itself, to the same but for time.
pub fn eager_moves_need_no_time()
    ensures { (funs : List SlottedFunction) (k : ℕ) (x z : SlotState) → EagerMoves funs k (untimed x) z → (y : SlotState) × EagerMoves funs k x y × (untimed y ≡ z) }
{}
