//! Entries that are no Op.

ghost use Rattle.std.specs.Prelude.{◌≡◌, ◌≤◌, ◌↔◌, [], ◌∷◌, ℕ, List, Contains, Some, length};
ghost use Rattle.hs_base.specs.declared.exn.Exn.{Exn};
ghost use Rattle.hs_base.specs.declared.tree.script.Script.{Script};
ghost use Rattle.hs_rules.specs.declared.entry.Entry.TheVariants.{Wake, Finish, Tick, Stranded};
ghost use Rattle.rules_meaning.specs.Values.{V};
ghost use Rattle.rules_typing.specs.TypingScripts.{Accepted};
ghost use Rattle.rules_waiting.specs.Waiting.{first_awake};
ghost use Rattle.exn_flight.specs.Asleep.{due_of};
ghost use Rattle.hs_rules.specs.Entries.{uncaught_line};
ghost use Rattle.slot_laws.specs.SlotRules.{ret, throw};
ghost use Rattle.slot_states.specs.SlotStates.{SlotState, wakes, finishes, strands, ticks, Enters, StandsBare, MainGoes};
ghost use Rattle.slot_states.specs.Resting.{WaitsOpen, AllRest};
ghost use Rattle.slot_states.specs.EntryLaws.{LocalsAreEntered, ReceivesAreEntered};

/// Some local rules of a thread that isn't blocked.
pub fn locals_are_entered()
    ensures { LocalsAreEntered }
{}

/// The first exception in flight to a receptive thread.
pub fn receives_are_entered()
    ensures { ReceivesAreEntered }
{}

/// A sleeper that is due: the first one, and any.
pub fn wakes_are_entered()
    ensures any { (script : Script) → Accepted script → (x : SlotState) (t due : ℕ) → due_of t x.sleepers ≡ Some due → due ≤ x.clock → MainGoes x → Enters script (Wake t) x (wakes t x) }
    ensures first { (script : Script) → Accepted script → (x : SlotState) (t : ℕ) → first_awake x.clock x.sleepers ≡ Some t → MainGoes x → Enters script (Wake t) x (wakes t x) }
{}

/// The end of a thread, by a value or by an exception.
pub fn ends_are_entered()
    ensures value { (script : Script) → Accepted script → (x : SlotState) (t : ℕ) (v : V) → StandsBare x t (ret v) → MainGoes x → Enters script (Finish t) x (finishes t 0 x) }
    ensures exception { (script : Script) → Accepted script → (x : SlotState) (t : ℕ) (e : Exn) → StandsBare x t (throw e) → MainGoes x → Enters script (Finish t) x (finishes t (length (uncaught_line t e)) x) }
{}

/// Where all rest and nobody sleeps, those who wait at a cell and aren't masked uninterruptibly are stranded, whatever the
/// order in which they are named.
pub fn strands_are_entered()
    ensures { (script : Script) → Accepted script → (x : SlotState) (t : ℕ) (ts : List ℕ) → AllRest x → x.sleepers ≡ [] → ((u : ℕ) → Contains (t ∷ ts) u ↔ WaitsOpen x u) → MainGoes x → Enters script Stranded x (strands (t ∷ ts) x) }
{}

/// The clock goes on.
pub fn ticks_are_entered()
    ensures { (script : Script) → Accepted script → (x : SlotState) (now : ℕ) → x.clock ≤ now → MainGoes x → Enters script (Tick now) x (ticks now x) }
{}
