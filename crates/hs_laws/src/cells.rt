//! The law of cells.

ghost use Rattle.std.specs.Prelude.{List};
ghost use Rattle.hs_rules.specs.declared.entry.Entry.{Entry};
ghost use Rattle.rules_expansion.specs.trees.Programs.{Fn};
ghost use Rattle.hs_rules.specs.State.{State};
ghost use Rattle.hs_rules.specs.Runs.{IsRun};
ghost use Rattle.hs_laws.specs.CellLaw.{CellsKept};

/// At every moment of a history each cell was made by the first of its calls, and does what the machine of one cell alone
/// does by the calls of the history: the same content and line, the same threads answered the same. What came out of it,
/// followed by its content, is what went in.
pub fn cells_are_kept()
    ensures { (ds : List Fn) (es : List Entry) (u : State) → IsRun ds es u → CellsKept ds es }
{}
