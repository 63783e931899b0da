//! The machine of one cell, and what values stand for.

ghost use Rattle.std.specs.Prelude.{◌≡◌};
ghost use Rattle.rules_waiting.specs.OneCell.{Call, Cell, call};
ghost use Rattle.hs_base.specs.declared.value.Value.{Value};
ghost use Rattle.rules_meaning.specs.Values.{value_of};
ghost use Rattle.slot_states.specs.mapping.Mapped.{map_after, map_call, map_cell};

/// A call on a cell of the code, and then what the cell and the answers stand for, is what the call stands for on what the
/// cell stands for. So a cell of the code does what the cell of the rules does.
pub fn one_cell_commutes()
    ensures { (q : Call Value) (c : Cell Value) → call (map_call value_of q) (map_cell value_of c) ≡ map_after value_of (call q c) }
{}
