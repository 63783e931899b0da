//! How histories end.

ghost use Rattle.std.specs.Prelude.{◌≡◌, ◌⊎◌, ◌++◌, ◌∷◌, [], ℕ, List, Some, None, true, slice_get};
ghost use Rattle.hs_base.specs.declared.limits.Limits.{Limits};
ghost use Rattle.hs_rules.specs.declared.entry.Entry.{Entry};
ghost use Rattle.hs_rules.specs.declared.entry.LimitKind.{LimitKind};
ghost use Rattle.rules_expansion.specs.trees.Programs.{Fn};
ghost use Rattle.rules_meaning.specs.CoreMeaning.{Code};
ghost use Rattle.hs_rules.specs.State.{Thread, State};
ghost use Rattle.hs_rules.specs.Entries.{next};
ghost use Rattle.hs_rules.specs.Runs.{after};
ghost use Rattle.hs_rules.specs.Endings.{RunEnding, IsDone, IsUncaught, IsWithin, FirstExceeded};
ghost use Rattle.hs_laws.specs.HistoryEndings.{HasEnding, HasLimit, StaysWithin};

/// A history has at most one ending, and a state exceeds at most one limit first. Where main has finished the ending is Done
/// or Uncaught, and nothing is legal any more.
pub fn endings_are_one()
    ensures ending { (a b : RunEnding) (ds : List Fn) (es : List Entry) (fuel : ℕ) → HasEnding a ds es fuel → HasEnding b ds es fuel → a ≡ b }
    ensures limit { (a b : LimitKind) (limits : Limits) (s : State) → FirstExceeded a limits s → FirstExceeded b limits s → a ≡ b }
    ensures main { (s : State) (th : Thread) → slice_get s.threads 0 ≡ Some th → th.finished ≡ true → IsDone s ⊎ IsUncaught s }
    ensures over { (code : Code) (s : State) (e : Entry) → IsDone s ⊎ IsUncaught s → next code s e ≡ None }
{}

/// A history stays within limits where its first state does, and each entry leaves one that does.
pub fn limits_are_kept()
    ensures begins { (limits : Limits) (ds : List Fn) → ((s : State) → after ds [] ≡ Some s → IsWithin limits s) → StaysWithin limits ds [] }
    ensures more { (limits : Limits) (ds : List Fn) (es : List Entry) (e : Entry) (u : State) → StaysWithin limits ds es → after ds (es ++ e ∷ []) ≡ Some u → IsWithin limits u → StaysWithin limits ds (es ++ e ∷ []) }
{}

/// A history that stays within limits has an ending or was ended at a limit, not both.
pub fn an_ending_or_a_limit()
    ensures { (a : RunEnding) (kind : LimitKind) (e : Entry) (limits : Limits) (ds : List Fn) (es : List Entry) (fuel : ℕ) → StaysWithin limits ds es → HasLimit kind e limits ds es fuel → ¬ HasEnding a ds es fuel }
{}
