//! At every moment of a run, what a thread's next local rule evaluates may be evaluated.

ghost use Rattle.std.specs.Prelude.{◌≡◌, Some, map, slice_get};
ghost use Rattle.rules_code.specs.declared.act.Act.{Act};
ghost use Rattle.rules_code.specs.declared.act.ActId.{ActId};
ghost use Rattle.rules_code.specs.declared.code.CodeBody.{CodeBody};
ghost use Rattle.rules_code.specs.Slots.{tree_at};
ghost use Rattle.rules_code.specs.CodeTrees.{act_tree_at};
ghost use Rattle.slot_laws.specs.Expressions.{slots_evaluated, nodes_evaluated};
ghost use Rattle.slot_laws.specs.ExpressionLaws.{SlotsMayBeEvaluated, SlotsMayBeEvaluatedInRuns, NodesMayBeEvaluated, NodesMayBeEvaluatedInRuns};

/// Where a term with slots stands for a named one, each expression that its next local rule evaluates is, with the values of
/// the slots, one that the next rule of the named term evaluates. So it is after any number of local rules of a thread for
/// whose state stacks stand.
pub fn slots_may_be_evaluated()
    ensures stands { SlotsMayBeEvaluated }
    ensures reached { SlotsMayBeEvaluatedInRuns }
{}

/// The same of the nodes of a code: the premise of `hs_eval::eval` at each expression of the node of an action that a thread
/// is to do. The action is in the code under the number `i`; the trees of the expressions that its node names are those that
/// the action's next local rule evaluates.
pub fn nodes_may_be_evaluated()
    ensures same { (b : CodeBody) (i : ActId) (k : Act) → slice_get b.acts i.0 ≡ Some k → slots_evaluated (act_tree_at b.nodes b.acts i) ≡ map (tree_at b.nodes) (nodes_evaluated k) }
    ensures stands { NodesMayBeEvaluated }
    ensures reached { NodesMayBeEvaluatedInRuns }
{}
