//! The law of masks.

ghost use Rattle.std.specs.Prelude.{◌≡◌, ℕ, List, Some};
ghost use Rattle.hs_rules.specs.declared.entry.Entry.{Entry};
ghost use Rattle.hs_rules.specs.declared.entry.Entry.TheVariants.{Receive};
ghost use Rattle.rules_expansion.specs.trees.Programs.{Fn};
ghost use Rattle.hs_rules.specs.State.{State};
ghost use Rattle.hs_rules.specs.Entries.{next};
ghost use Rattle.hs_rules.specs.Runs.{IsRun};
ghost use Rattle.rules_meaning.specs.CoreMeaning.{code_of};
ghost use Rattle.hs_laws.specs.MaskLaw.{ReceivedAfter, MasksKept};

/// Wherever a thread of a history receives an exception, it is blocked and not masked uninterruptibly, or it isn't blocked
/// and not masked; and the exception is the first in flight to it, thrown by a thread that has waited for that since.
/// Wherever threads are stranded, they are exactly those that wait at a cell and aren't masked uninterruptibly. The first
/// clause says the same of each Receive that a run could go on with.
pub fn masks_are_kept()
    ensures could { (ds : List Fn) (es : List Entry) (u v : State) (t : ℕ) → IsRun ds es u → next (code_of ds) u (Receive t) ≡ Some v → ReceivedAfter ds es u t }
    ensures kept { (ds : List Fn) (es : List Entry) (u : State) → IsRun ds es u → MasksKept ds es }
{}
