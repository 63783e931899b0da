//! What each legal entry asks of a state with slots. This module has no code: each public function with an empty body carries
//! laws as its contract, so that a caller may use them and a reader find them.
//!
//! To a contract a state with slots is that of `slot_states`, and what an entry asks of it is said by `specs/demands/Demands.antt`.
//!
//! Its promise: where an entry is legal in the state that a run of an accepted script leaves, a state with slots that stands
//! for it has what the entry asks; it rests where that state is a deadlock, and shows how main has ended. With `slot_states`,
//! where what is asked is enough, whoever tests what is asked finds exactly the legal entries.

ghost use Rattle.std.specs.Prelude.{◌≡◌, ℕ, []};
ghost use Rattle.hs_rules.specs.declared.entry.Entry.{Entry};
ghost use Rattle.rules_expansion.specs.trees.Programs.{script_of};
ghost use Rattle.rules_meaning.specs.CoreMeaning.{code_of};
ghost use Rattle.hs_rules.specs.Entries.{IsLegal};
ghost use Rattle.hs_rules.specs.Endings.{IsDone, IsUncaught, IsDeadlock};
ghost use Rattle.slot_states.specs.SlotStates.{MainGoes};
ghost use Rattle.slot_states.specs.Resting.{WaitsOpen, AllRest};
ghost use Rattle.slot_states.specs.demands.Demands.{Asks};
ghost use Rattle.slot_states.specs.Premises.{OfRuns, OfAcceptedRuns};
ghost use Rattle.slot_states.specs.demands.Endings.{ShowsValueOfMain, ShowsExceptionOfMain};

/// Where an entry is legal, main hasn't finished, and there is what the entry asks.
pub fn legal_entries_ask()
    ensures { OfAcceptedRuns (λ script s x. (e : Entry) → IsLegal (code_of (script_of script)) s e → MainGoes x × Asks (script_of script) e x) }
{}

/// In a deadlock all rest, nobody sleeps, and nobody may be stranded.
pub fn deadlocks_rest()
    ensures { OfAcceptedRuns (λ script s x. MainGoes x → IsDeadlock (code_of (script_of script)) s → AllRest x × (x.sleepers ≡ []) × ((t : ℕ) → WaitsOpen x t → ⊥)) }
{}

/// Where main has finished by a value or by an exception, its thread with slots shows it.
pub fn ended_as_shown()
    ensures done { OfRuns (λ s x. IsDone s → ShowsValueOfMain x) }
    ensures uncaught { OfRuns (λ s x. IsUncaught s → ShowsExceptionOfMain x) }
{}
