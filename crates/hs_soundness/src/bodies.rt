//! What acceptance says of bodies.

ghost use Rattle.std.specs.Prelude.{ℕ};
ghost use Rattle.hs_base.specs.declared.tree.script.Script.{Script};
ghost use Rattle.hs_base.specs.declared.tree.expr.Expr.{Expr};
ghost use Rattle.hs_base.specs.declared.tree.action.Block.{Block};
ghost use Rattle.rules_expansion.specs.trees.Trees.{ex_of};
ghost use Rattle.rules_expansion.specs.trees.Programs.{bl_of, script_of};
ghost use Rattle.rules_typing.specs.TypingScripts.{Accepted, sigs_from};
ghost use Rattle.rules_sorts.specs.TypedMeaning.{PureTyped, Well};
ghost use Rattle.hs_soundness.specs.AcceptedBodies.{BodiesTyped};
ghost use Rattle.hs_soundness.specs.WellActions.{WellBl};

/// Each body of an accepted script has its definition's declared type, and each expression of a script has `&&` and
/// `||` in chains from the left alone, also within its blocks. So the premise of the laws of meaning holds.
pub fn accepted_bodies_are_typed()
    ensures bodies { (s : Script) → Accepted s → BodiesTyped (sigs_from 0 (script_of s)) 0 (script_of s) }
    ensures well { (e : Expr) → Well (ex_of e) }
    ensures blocks { (b : Block) → WellBl (bl_of b) }
    ensures functions { (s : Script) → Accepted s → PureTyped (sigs_from 0 (script_of s)) 0 (script_of s) }
{}
