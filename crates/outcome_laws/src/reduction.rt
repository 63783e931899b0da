//! Which entries a search over all schedules of a script may take at once. This module has no code: each public function with
//! an empty body carries laws as its contract, so that a caller may use them and a reader find them.
//!
//! To a contract a local rule is eager (`specs/reduction/EagerRules.antt`) by the term that it meets and the first step of its action
//! alone, or, where nobody throws at a thread (`specs/reduction/NoThrowTo.antt`), always; there a thread's end by a value is eager too.
//! A path (`specs/reduction/Paths.antt`) is a list of entries from state to state, each of which a search takes.
//!
//! Its promise: a set of states that each taken entry leads back into, but for eager steps, has each outcome that runs come
//! to, and a rank of its states that falls bounds every run. How such a set is found is left to the crate that searches.

ghost use Rattle.std.specs.Prelude.{◌≡◌, ℕ, List, Some};
ghost use Rattle.hs_base.specs.declared.clock_choice.ClockChoice.{ClockChoice};
ghost use Rattle.rules_expansion.specs.Core.{Core};
ghost use Rattle.rules_meaning.specs.CoreMeaning.{Code};
ghost use Rattle.hs_rules.specs.declared.entry.Entry.{Entry};
ghost use Rattle.hs_rules.specs.declared.entry.Entry.TheVariants as entry;
ghost use Rattle.hs_rules.specs.State.{State, first};
ghost use Rattle.hs_rules.specs.Entries.{next, Leads};
ghost use Rattle.hs_rules.specs.Histories.{steps_of};
ghost use Rattle.hs_rules.specs.Runs.{Run};
ghost use Rattle.hs_rules.specs.Endings.{IsDone, IsUncaught, IsDeadlock};
ghost use Rattle.outcome_laws.specs.Timings.{MayTick, TimedRun};
ghost use Rattle.outcome_laws.specs.Outcomes.{Outcome, ShowsOutcome};
ghost use Rattle.outcome_laws.specs.reduction.NoThrowTo.{NoThrowTo, NoThrowToActions, NobodyThrows};
ghost use Rattle.outcome_laws.specs.reduction.EagerRules.{EagerRule, EagerFinish, EagerSteps};
ghost use Rattle.outcome_laws.specs.reduction.Paths.{IsStable, Move, entries_of, Path, counted, HasEnded, EndsLike, KeptEnding, IsOther, Commutes, CommutesWithReceive, CommutesWithFinish, NamesThread};
ghost use Rattle.outcome_laws.specs.reduction.SetLaws.{ClosedSetsHaveEndings, ClosedSetsHaveOutcomes, ClosedSetsHaveOutcomesOfScripts, FallingRanksBoundRuns, FallingRanksEndScripts};

/// What others do comes to the same before an eager local rule and after it. An exception that its thread receives before it
/// can be received after it, and then local rules make up the difference. There is nothing else that its thread can do.
pub fn eager_rules_commute()
    ensures others { (code : Code) (t : ℕ) (s u : State) (e : Entry) (m : State) → EagerRule code t s u → IsOther t e → Leads code s e m → Commutes code t u e m }
    ensures receives { (code : Code) (t : ℕ) (s u m : State) → EagerRule code t s u → Leads code s (entry.Receive t) m → CommutesWithReceive code t u m }
    ensures itself { (code : Code) (t : ℕ) (s u m : State) → EagerRule code t s u → Leads code s (entry.Local t 1) m → m ≡ u }
    ensures performs { (code : Code) (t : ℕ) (s u m : State) → EagerRule code t s u → ¬ Leads code s (entry.Op t) m }
    ensures finishes { (code : Code) (t : ℕ) (s u m : State) → EagerRule code t s u → ¬ Leads code s (entry.Finish t) m }
{}

/// Where nobody throws at a thread, that one other than main finishes by a value comes to the same before and after what
/// others do.
pub fn eager_finishes_commute()
    ensures { (code : Code) (t : ℕ) (s u : State) (e : Entry) (m : State) → EagerFinish code t s u → Leads code s e m → CommutesWithFinish code t u e m }
{}

/// Where nobody throws at a thread, in a state and in all action functions, nobody does after any entry, and no exception can
/// be received. It is so in the first state of a script in which `throwTo` stands nowhere.
pub fn nobody_ever_throws()
    ensures begins { (code : Code) (main : Core) → NoThrowToActions code.actions → NoThrowTo main → NobodyThrows code (first main) }
    ensures kept { (code : Code) (s : State) (e : Entry) (u : State) → NobodyThrows code s → next code s e ≡ Some u → NobodyThrows code u }
    ensures receives { (code : Code) (s : State) (t : ℕ) (u : State) → NobodyThrows code s → next code s (entry.Receive t) ≡ Some u → ⊥ }
{}

/// In each timing a Tick that may stand before an eager step may stand after it.
pub fn ticks_are_stable()
    ensures { (clock : ClockChoice) (code : Code) → IsStable code (MayTick clock code) }
{}

/// A run of a timing is a path of as many counted moves as it has steps, and a path is a run.
pub fn runs_are_paths()
    ensures path { (clock : ClockChoice) (code : Code) (es : List Entry) (s z : State) → TimedRun clock code s es z → (vs : List Move) × Path code (MayTick clock code) s vs z × (counted vs ≡ steps_of es) }
    ensures run { (clock : ClockChoice) (code : Code) (vs : List Move) (s z : State) → Path code (MayTick clock code) s vs z → Run code s (entries_of vs) z }
{}

/// No ending is lost by eager steps: where some path from the state before them reaches it, one from the state after them, no
/// longer, reaches one like it.
pub fn no_ending_is_lost()
    ensures { (clock : ClockChoice) (code : Code) (k : ℕ) (s u z : State) (vs : List Move) → EagerSteps code k s u → HasEnded code z → Path code (MayTick clock code) s vs z → KeptEnding code (MayTick clock code) vs u z }
{}

/// Where eager steps lead from a state to one of a set, and from whatever a taken entry leaves of a state of the set to one of
/// it again, the set has each ending that a run of the timing from that state reaches, and each outcome; from the first state
/// of a script each outcome of the script.
pub fn closed_sets_have_each_ending()
    ensures ending { ClosedSetsHaveEndings }
    ensures outcome { ClosedSetsHaveOutcomes }
    ensures script { ClosedSetsHaveOutcomesOfScripts }
{}

/// Endings that are alike printed the same, are of one kind, and show the same outcome.
pub fn alike_endings_show_the_same()
    ensures prints { (s u : State) → EndsLike s u → (s.output ≡ u.output) × (s.errors ≡ u.errors) }
    ensures done { (s u : State) → EndsLike s u → IsDone s → IsDone u }
    ensures uncaught { (s u : State) → EndsLike s u → IsUncaught s → IsUncaught u }
    ensures deadlock { (code : Code) (s u : State) → EndsLike s u → IsDeadlock code s → IsDeadlock code u }
    ensures outcome { (code : Code) (s u : State) (o : Outcome) → EndsLike s u → ShowsOutcome code s o → ShowsOutcome code u o }
{}

/// Where a rank of the states of such a set falls with each taken entry by at least the entries other than Ticks, that one and
/// the eager steps after it, no run of the timing has more entries other than Ticks than the eager steps to the set and the
/// rank that its state has there. So a script from whose first state eager steps lead to such a set isn't endless.
pub fn ranks_bound_runs()
    ensures runs { FallingRanksBoundRuns }
    ensures script { FallingRanksEndScripts }
{}

/// Each entry that leads on names a thread that there is, or one that sleeps; so there are few to try in a state.
pub fn few_entries_lead_on()
    ensures { (code : Code) (s : State) (e : Entry) (u : State) → next code s e ≡ Some u → NamesThread s e }
{}
