//! What a tally stands for. This file has no code.
ghost use Rattle.std.specs.Prelude.{◌≡◌, ◌+◌, ◌++◌, ◌∷◌, [], ℕ, List, Option, Some, length, slice_get};
ghost use Rattle.hs_rules.specs.declared.entry.Entry.{Entry};
ghost use Rattle.hs_rules.specs.Entries.{Leads};
ghost use Rattle.hs_rules.specs.Runs.{IsRun};
ghost use Rattle.hs_rules.specs.State.{State};
ghost use Rattle.hs_laws.specs.CellLaw.{ins, outs};
ghost use Rattle.rules_meaning.specs.CoreMeaning.{code_of};
ghost use Rattle.rules_meaning.specs.Values.{V};
ghost use Rattle.rules_expansion.specs.trees.Programs.{Fn};
ghost use Rattle.trace_report.specs.declared.tally.counts.Seen.{Seen as WhatIsSeen};
ghost use Rattle.trace_report.specs.declared.tally.tally.Tally.{Tally as ATally};
ghost use Rattle.trace_report.specs.tally.Reporting.{one_if};
ghost use Rattle.trace_report.specs.tally.Tallying.{IsCounted, Sees, Tallies};
ghost use Rattle.trace_report.specs.tally.Touching.{full_in};

/// Where an entry of a run was counted by what is seen of it, the counts are those of the run with that entry.
pub fn counts_go_on()
    ensures { (ds : List Fn) (es : List Entry) (s u : State) (e : Entry) (seen : WhatIsSeen) (old new : ATally) → IsRun ds es s → Leads (code_of ds) s e u → Sees e s u seen → Tallies ds es old → IsCounted e seen old new → Tallies ds (es ++ e ∷ []) new }
{}

/// As many values went into a cell as came out, and one more where it is full.
#[tactic(auto, using(crate::proofs::tally_lemmas::Steps::ins_are))]
pub fn cells_hold_the_rest()
    ensures { (ds : List Fn) (es : List Entry) (s : State) (m : ℕ) (o : Option V) → IsRun ds es s → slice_get s.cells m ≡ Some o → length (ins ds es m) ≡ length (outs ds es m) + one_if (full_in m s) }
{}
