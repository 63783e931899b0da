//! All that a run evaluates has a value.

ghost use Rattle.std.specs.Prelude.{List};
ghost use Rattle.hs_base.specs.declared.tree.script.Script.{Script};
ghost use Rattle.rules_expansion.specs.trees.Programs.{Fn, script_of};
ghost use Rattle.rules_expansion.specs.Core.{Core};
ghost use Rattle.rules_meaning.specs.Values.{V, Env};
ghost use Rattle.rules_meaning.specs.Meaning.{functions_of};
ghost use Rattle.rules_typing.specs.TypingScripts.{Accepted};
ghost use Rattle.rules_code.specs.Matching.{Matches};
ghost use Rattle.rules_sorts.specs.TypedMeaning.{any_cell};
ghost use Rattle.hs_soundness.specs.CoreSorts.{names_of, SlotsFit};
ghost use Rattle.hs_progress.specs.Evaluated.{evaluated, MayEvaluate, AllAnswer};
ghost use Rattle.hs_progress.specs.EvaluatedLaws.{RunsMayEvaluate};

/// In a state of a run of an accepted script, and after any number of local rules of a thread from there: the expressions
/// that the thread's next local rule evaluates have sorts in a scope that the environment fits. So each gives a value or an
/// exception, and never nothing; and values of slots that are the environment's by the names of that scope fit it, as who
/// evaluates with slots in place of names must know.
pub fn runs_may_evaluate()
    ensures may { RunsMayEvaluate }
    ensures answer { (s : Script) → Accepted s → (a : Core) (env : Env) → MayEvaluate (script_of s) a env → AllAnswer (functions_of (script_of s)) env (evaluated a) }
    ensures slots { (ds : List Fn) (a : Core) (env : Env) (m : MayEvaluate ds a env) (vs : List V) → Matches (names_of m.scope) env vs → SlotsFit any_cell m.scope env vs }
{}
