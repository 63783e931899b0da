//! Terms with slots move as the terms with names that they stand for.

ghost use Rattle.std.specs.Prelude.{◌∷◌, []};
ghost use Rattle.hs_base.specs.declared.mask.Mask.{Mask};
ghost use Rattle.hs_base.specs.declared.tree.script.Script.{Script};
ghost use Rattle.rules_expansion.specs.trees.Programs.{script_of};
ghost use Rattle.rules_sorts.specs.TypedMeaning.{any_cell};
ghost use Rattle.rules_typing.specs.TypingScripts.{Accepted};
ghost use Rattle.rules_code.specs.CodeTrees.{main_tree};
ghost use Rattle.hs_rules.specs.Terms.{Term};
ghost use Rattle.hs_progress.specs.TypedStates.{HeadsKept};
ghost use Rattle.slot_laws.specs.SlotRules.{doing, mask_in, at};
ghost use Rattle.slot_laws.specs.Standing.{Stands};
ghost use Rattle.slot_laws.specs.MovingLaws.{OneRuleMovesBoth, SomeRulesMoveBoth, ActionsHaveARule, SlicesMoveNames, MainReadsItself, ActionsGoInEveryMask};

/// A term with slots moves as each term with names that it stands for, and stands again: one local rule, and some in turn.
/// An action has a next step. A slice moves the term of each stack with its masking state.
pub fn slots_move_as_names()
    ensures rule { OneRuleMovesBoth }
    ensures rules { SomeRulesMoveBoth }
    ensures goes { ActionsHaveARule }
    ensures slice { SlicesMoveNames }
{}

/// Each action function of an accepted script does what its head says, and the body of `main` stands for itself.
pub fn actions_are_typed()
    ensures heads { (s : Script) → Accepted s → HeadsKept (script_of s) }
    ensures main { MainReadsItself }
{}

/// An action may be done alone in a masking scope of every state: the body of `main`, and the action of a thread, wherever
/// its term stands for a named one.
pub fn actions_may_go()
    ensures main { (s : Script) → Accepted s → (m : Mask) → (t : Term) × Stands any_cell (script_of s) (at (doing (main_tree (script_of s)) []) (mask_in m ∷ [])) t }
    ensures thread { ActionsGoInEveryMask }
{}
