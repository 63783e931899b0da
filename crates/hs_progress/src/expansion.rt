//! What actions expand to has their types.

ghost use Rattle.std.specs.Prelude.{◌≡◌, List, [], Some};
ghost use Rattle.hs_base.specs.declared.tree.script.Script.{Script};
ghost use Rattle.rules_expansion.specs.trees.Trees.{T, unit};
ghost use Rattle.rules_expansion.specs.trees.Programs.{SurfaceAction, Bl, script_of};
ghost use Rattle.rules_expansion.specs.Core.{Core};
ghost use Rattle.rules_expansion.specs.Expansion.{core, block_core, main_of};
ghost use Rattle.rules_sorts.specs.Sorts.{a_value, SortedName};
ghost use Rattle.rules_typing.specs.Typing as typing;
ghost use Rattle.rules_typing.specs.TypingActions.{ActHas, BlHas};
ghost use Rattle.rules_typing.specs.TypingScripts.{Accepted};
ghost use Rattle.hs_soundness.specs.WellActions.{WellAct, WellBl};
ghost use Rattle.hs_progress.specs.CoreTyping.{Does, Sees};
ghost use Rattle.hs_progress.specs.TypedStates.{HeadsKept, Runs, Store, has};

/// Where the typing rules give an action or a block a type, its expansion has that type in every scope whose names of the
/// script are those that the rules see. So each action function of an accepted script does what its head says, and `main`
/// can begin, by every store.
pub fn expansions_keep_types()
    ensures action { (c : typing.Ctx) (s : List typing.TypedName) (a : SurfaceAction) (t : T) → WellAct a → ActHas c s a t → (g : List SortedName) → Sees g s → Does c g (core a) (a_value t) }
    ensures block { (c : typing.Ctx) (s : List typing.TypedName) (b : Bl) (t : T) → WellBl b → BlHas c s b t → (g : List SortedName) → Sees g s → Does c g (block_core b) (a_value t) }
    ensures heads { (s : Script) → Accepted s → HeadsKept (script_of s) }
    ensures main { (s : Script) → Accepted s → (a : Core) × (main_of (script_of s) ≡ Some a) × ((st : Store) → Runs (has st) (script_of s) a [] (a_value unit)) }
{}
