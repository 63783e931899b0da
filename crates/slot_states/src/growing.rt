//! How much an entry adds to what a run may use only so much of.

ghost use Rattle.std.specs.Prelude.{◌≡◌, ◌+◌, Some};
ghost use Rattle.hs_base.specs.declared.tree.script.Script.{Script};
ghost use Rattle.hs_rules.specs.declared.entry.Entry.{Entry};
ghost use Rattle.hs_rules.specs.declared.entry.LimitKind.{LimitKind};
ghost use Rattle.rules_expansion.specs.trees.Programs.{script_of};
ghost use Rattle.rules_meaning.specs.CoreMeaning.{code_of};
ghost use Rattle.hs_rules.specs.State.{State};
ghost use Rattle.hs_rules.specs.Entries.{next};
ghost use Rattle.hs_rules.specs.Endings.{used};
ghost use Rattle.slot_states.specs.SlotStates.{SlotState, Represents};
ghost use Rattle.slot_states.specs.Growing.{growth, IsNoLocal};

/// An entry other than a Local adds so many threads, cells, frames and bytes to those of the state.
pub fn entries_grow()
    ensures { (script : Script) (x : SlotState) (s u : State) (e : Entry) → Represents (script_of script) x s → next (code_of (script_of script)) s e ≡ Some u → IsNoLocal e → (kind : LimitKind) → used kind u ≡ used kind s + growth kind x e }
{}
