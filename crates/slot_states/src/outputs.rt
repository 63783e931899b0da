//! What entries print.

ghost use Rattle.std.specs.Prelude.{◌≡◌, [], List};
ghost use Rattle.hs_base.specs.declared.tree.script.Script.{Script};
ghost use Rattle.hs_rules.specs.declared.entry.Entry.{Entry};
ghost use Rattle.rules_expansion.specs.trees.Programs.{script_of};
ghost use Rattle.hs_rules.specs.State.{State};
ghost use Rattle.hs_rules.specs.Runs.{IsRun, out, err};
ghost use Rattle.slot_states.specs.OutputLaws.{StatesPrint, HistoriesPrint};

/// An entry adds to standard output and to standard error what the thread that it is of prints, and so it adds to what the
/// history prints.
pub fn entries_print()
    ensures state { StatesPrint }
    ensures history { HistoriesPrint }
    ensures begins { (script : Script) → (out (script_of script) [] ≡ []) × (err (script_of script) [] ≡ []) }
    ensures now { (script : Script) (es : List Entry) (s : State) → IsRun (script_of script) es s → (out (script_of script) es ≡ s.output) × (err (script_of script) es ≡ s.errors) }
{}
