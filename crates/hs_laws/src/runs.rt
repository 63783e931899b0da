//! Runs and their parts.

ghost use Rattle.std.specs.Prelude.{◌≡◌, ◌++◌, ◌∷◌, [], List, Some};
ghost use Rattle.hs_rules.specs.declared.entry.Entry.{Entry};
ghost use Rattle.rules_expansion.specs.trees.Programs.{Fn};
ghost use Rattle.rules_meaning.specs.CoreMeaning.{code_of};
ghost use Rattle.hs_rules.specs.State.{State};
ghost use Rattle.hs_rules.specs.Entries.{next, Leads};
ghost use Rattle.hs_rules.specs.Runs.{Run, then_next, after, IsRun};

/// A run leaves the one state that is computed from it. Each prefix of a run is a run, and the rest goes on from the state
/// that it leaves. A run goes on by an entry that is legal in the state that it leaves, and by nothing else.
pub fn runs_go_on()
    ensures state { (ds : List Fn) (es : List Entry) (u : State) → IsRun ds es u → after ds es ≡ Some u }
    ensures prefix { (ds : List Fn) (front back : List Entry) (u : State) → IsRun ds (front ++ back) u → (s : State) × IsRun ds front s × Run (code_of ds) s back u }
    ensures more { (ds : List Fn) (es : List Entry) (e : Entry) (s u : State) → IsRun ds es s → Leads (code_of ds) s e u → IsRun ds (es ++ e ∷ []) u }
    ensures after { (ds : List Fn) (es : List Entry) (e : Entry) → after ds (es ++ e ∷ []) ≡ then_next (after ds es) (λ u. next (code_of ds) u e) }
{}
