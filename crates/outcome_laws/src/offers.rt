//! What a state with slots offers: of each kind of entry, which may be legal. This module has no code: each public function
//! with an empty body carries one law as its contract, so that a caller may use it and a reader find it.
//!
//! To a contract a state with slots is that of `slot_states`, and what it offers is said by `specs/offers/Offers.antt`, of its
//! threads, exceptions in flight, sleepers and clock alone.
//!
//! Its promise: in the state of a run of an accepted script whatever is legal is offered by a state with slots that stands for
//! it, and of several sleepers that are due any may wake. So who takes each entry that is offered leaves none out. That what
//! is offered is legal is left to `slot_states`, which says it of each kind of entry.

ghost use Rattle.std.specs.Prelude.{◌≡◌, ◌≤◌, ℕ, List};
ghost use Rattle.hs_base.specs.declared.tree.script.Script.{Script};
ghost use Rattle.hs_rules.specs.declared.entry.Entry.{Entry};
ghost use Rattle.hs_rules.specs.declared.entry.Entry.TheVariants.{Wake};
ghost use Rattle.rules_expansion.specs.trees.Programs.{script_of};
ghost use Rattle.rules_meaning.specs.CoreMeaning.{code_of};
ghost use Rattle.rules_typing.specs.TypingScripts.{Accepted};
ghost use Rattle.hs_rules.specs.State.{State};
ghost use Rattle.hs_rules.specs.Entries.{IsLegal};
ghost use Rattle.hs_rules.specs.Runs.{IsRun};
ghost use Rattle.slot_states.specs.SlotStates.{SlotState, wakes, Represents, Enters, MainGoes};
ghost use Rattle.outcome_laws.specs.offers.Offers.{SleepsUntil, Offers};

/// Any sleeper that is due may wake.
pub fn any_due_sleeper_wakes()
    ensures { (script : Script) → Accepted script → (x : SlotState) (t due : ℕ) → SleepsUntil t due x.sleepers → due ≤ x.clock → MainGoes x → Enters script (Wake t) x (wakes t x) }
{}

/// What is legal is offered.
pub fn what_is_legal_is_offered()
    ensures { (script : Script) → Accepted script → (es : List Entry) (s : State) → IsRun (script_of script) es s → (x : SlotState) → Represents (script_of script) x s → (e : Entry) → IsLegal (code_of (script_of script)) s e → Offers x e }
{}
