//! What each entry makes of a state with slots, as one function. This module has no code: each public function with an empty
//! body carries laws as its contract, so that a caller may use them and a reader find them.
//!
//! To a contract a state with slots is that of `slot_states`, and `next` of `specs/entering/Entering.antt` is the state that an entry
//! leaves of it, or none.
//!
//! Its promise: where a state with slots stands for the state that a run of an accepted script leaves, `next` has a state
//! exactly where the entry is legal, and then it stands for the state that the entry leaves. So whoever computes `next` of
//! each entry computes the rules.

ghost use Rattle.std.specs.Prelude.{◌≡◌, Some};
ghost use Rattle.hs_base.specs.declared.tree.script.Script.{Script};
ghost use Rattle.hs_rules.specs.declared.entry.Entry.{Entry};
ghost use Rattle.rules_expansion.specs.trees.Programs.{script_of};
ghost use Rattle.rules_typing.specs.TypingScripts.{Accepted};
ghost use Rattle.rules_code.specs.CodeTrees.{code_trees};
ghost use Rattle.slot_states.specs.SlotStates.{SlotState, Enters};
ghost use Rattle.slot_states.specs.entering.Entering.{next};
ghost use Rattle.slot_states.specs.entering.NextLaws.{WhatIsLegalIsNext};

/// Where there is a next state the entry is legal, and that state stands for the one that it leaves.
pub fn next_is_entered()
    ensures { (script : Script) → Accepted script → (x y : SlotState) (e : Entry) → next (code_trees (script_of script)) x e ≡ Some y → Enters script e x y }
{}

/// Where an entry is legal there is a next state, and it stands for the one that the entry leaves.
pub fn what_is_legal_is_next()
    ensures { WhatIsLegalIsNext }
{}
