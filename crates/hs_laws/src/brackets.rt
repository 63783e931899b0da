//! The law of brackets.

ghost use Rattle.std.specs.Prelude.{List};
ghost use Rattle.hs_rules.specs.declared.entry.Entry.{Entry};
ghost use Rattle.rules_expansion.specs.trees.Programs.{Fn};
ghost use Rattle.hs_rules.specs.State.{State};
ghost use Rattle.hs_rules.specs.Runs.{IsRun};
ghost use Rattle.hs_laws.specs.BracketLaw.{Brackets};
ghost use Rattle.hs_laws.specs.BracketPhases.{Owing, BracketsKept};

/// In every run of a script each use of a bracket is acquired once, and released at most once, by the thread that
/// acquired it, and exactly once where that thread has finished. What a thread's term owes is what its thread has
/// acquired and not released, and stands masked. The last clause says both of every moment of a history.
pub fn brackets_are_released()
    ensures released { (ds : List Fn) (es : List Entry) (s : State) → IsRun ds es s → Brackets s }
    ensures owed { (ds : List Fn) (es : List Entry) (s : State) → IsRun ds es s → Owing s }
    ensures kept { (ds : List Fn) (es : List Entry) (s : State) → IsRun ds es s → BracketsKept ds es }
{}
