//! Where a run has come to rest, and what can still go on.

ghost use Rattle.std.specs.Prelude.{◌≡◌, ◌≢◌, ◌⊎◌, ℕ, []};
ghost use Rattle.hs_base.specs.declared.tree.script.Script.{Script};
ghost use Rattle.hs_rules.specs.declared.entry.Entry.{Entry};
ghost use Rattle.hs_rules.specs.declared.entry.Entry.TheVariants.{Local};
ghost use Rattle.rules_expansion.specs.trees.Programs.{script_of};
ghost use Rattle.rules_meaning.specs.CoreMeaning.{code_of};
ghost use Rattle.rules_waiting.specs.Waiting.{earliest};
ghost use Rattle.hs_rules.specs.State.{State};
ghost use Rattle.hs_rules.specs.Entries.{IsLegal};
ghost use Rattle.hs_rules.specs.Endings.{IsQuiet, IsDeadlock};
ghost use Rattle.hs_laws.specs.ClockLaw.{first_due};
ghost use Rattle.slot_states.specs.SlotStates.{SlotState, Represents, MainGoes};
ghost use Rattle.slot_states.specs.Resting.{WaitsOpen, AllRest, Goes, NobodyActs, IsLeft};
ghost use Rattle.slot_states.specs.Premises.{OfAcceptedRuns};

/// Where nobody acts, nothing is legal but a Tick, local rules of threads that are to do an action, and, where there is no such
/// thread and nobody sleeps, a Stranded.
pub fn what_is_left()
    ensures { OfAcceptedRuns (λ script s x. MainGoes x → NobodyActs x → (e : Entry) → IsLegal (code_of (script_of script)) s e → IsLeft x e) }
{}

/// Where nobody acts and no thread is to do an action, all rest. Then it is quiet where somebody sleeps, or where nobody may
/// be stranded; and where both nobody sleeps and nobody may be stranded it is a deadlock.
pub fn rest_is_quiet()
    ensures rests { (x : SlotState) → NobodyActs x → ((t : ℕ) → Goes x t → ⊥) → AllRest x }
    ensures quiet { OfAcceptedRuns (λ script s x. MainGoes x → AllRest x → (x.sleepers ≢ []) ⊎ ((t : ℕ) → WaitsOpen x t → ⊥) → IsQuiet (code_of (script_of script)) s) }
    ensures deadlock { OfAcceptedRuns (λ script s x. MainGoes x → AllRest x → x.sleepers ≡ [] → ((t : ℕ) → WaitsOpen x t → ⊥) → IsDeadlock (code_of (script_of script)) s) }
{}

/// A thread that is to do an action has a legal Local of one step, so it isn't quiet. Where somebody sleeps it is no deadlock.
pub fn a_thread_goes()
    ensures local { OfAcceptedRuns (λ script s x. MainGoes x → (t : ℕ) → Goes x t → IsLegal (code_of (script_of script)) s (Local t 1)) }
    ensures sleeps { (script : Script) (x : SlotState) (s : State) → Represents (script_of script) x s → x.sleepers ≢ [] → IsDeadlock (code_of (script_of script)) s → ⊥ }
{}

/// When the first sleeper may wake.
pub fn the_first_due_is_stood_for()
    ensures { (script : Script) (x : SlotState) (s : State) → Represents (script_of script) x s → first_due s ≡ earliest x.sleepers }
{}
