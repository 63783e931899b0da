//! Local rules keep types.

ghost use Rattle.std.specs.Prelude.{◌≡◌, ℕ, Some};
ghost use Rattle.hs_base.specs.declared.tree.script.Script.{Script};
ghost use Rattle.rules_expansion.specs.trees.Programs.{script_of};
ghost use Rattle.rules_meaning.specs.CoreMeaning.{code_of};
ghost use Rattle.rules_typing.specs.TypingScripts.{Accepted};
ghost use Rattle.hs_rules.specs.Terms.{Term};
ghost use Rattle.hs_rules.specs.LocalRules.{local, locals};
ghost use Rattle.hs_progress.specs.TypedStates.{Store, has, TermTyped};
ghost use Rattle.hs_progress.specs.GoingOn.{StepsOrStops};

/// By every store, a typed term of an accepted script has a local rule, which leaves a typed term, or it is a value or an
/// exception without frames, or it stands at an operation. Any number of local rules leaves a typed term.
pub fn local_rules_keep_types()
    ensures step { (s : Script) → Accepted s → (st : Store) (t : Term) → TermTyped (has st) (script_of s) t → StepsOrStops (has st) (script_of s) t.part t.frames (local (code_of (script_of s)) t.part t.frames) }
    ensures steps { (s : Script) → Accepted s → (st : Store) (t : Term) → TermTyped (has st) (script_of s) t → (k : ℕ) (u : Term) → locals (code_of (script_of s)) k t ≡ Some u → TermTyped (has st) (script_of s) u }
{}
