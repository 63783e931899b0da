//! Time taken away from the rules of a run. This module has no code: each public function with an empty body carries laws as
//! its contract, so that a caller may use them and a reader find them.
//!
//! To a contract `timeless s` is the state s with its clock at 0 and every sleeper due at 0, and a timeless run goes on by
//! entries other than Ticks and readings of the clock, each from a state without time to a state without time
//! (`specs/timing/WithoutTime.antt`).
//!
//! Its promise: each timeless run is a run with at most one Tick before each Wake; and where no timeless run meets a legal
//! reading of the clock, each run is a timeless run without its Ticks. What runs come to is left to `outcome_laws`, and where
//! a runner's Ticks may stand to `hs_laws`.

ghost use Rattle.std.specs.Prelude.{◌≡◌, ◌↔◌, ℕ, List, []};
ghost use Rattle.hs_rules.specs.declared.entry.Entry.{Entry};
ghost use Rattle.hs_rules.specs.declared.entry.Entry.TheVariants.{Tick};
ghost use Rattle.rules_meaning.specs.CoreMeaning.{Code};
ghost use Rattle.rules_waiting.specs.Waiting.{sleepers_of};
ghost use Rattle.hs_rules.specs.State.{State};
ghost use Rattle.hs_rules.specs.Entries.{IsIdle, Leads, IsLegal};
ghost use Rattle.hs_rules.specs.Endings.{IsDone, IsUncaught, IsDeadlock, IsTick};
ghost use Rattle.hs_rules.specs.Runs.{Run};
ghost use Rattle.outcome_laws.specs.timing.WithoutTime.{timeless, ReadsClock, LeadsTimeless, TimelessRun, NeverReadsClock, without_ticks, with_its_tick, WithTheirTicks};

/// A Tick changes nothing but time. Each other entry that is legal in a state and doesn't read the clock is legal in the
/// state without time, and leaves the same but for time.
pub fn entries_need_no_time()
    ensures tick { (code : Code) (s u : State) (at : ℕ) → Leads code s (Tick at) u → timeless u ≡ timeless s }
    ensures entry { (code : Code) (s u : State) (e : Entry) → ¬ IsTick e → ¬ ReadsClock s e → Leads code s e u → LeadsTimeless code (timeless s) e (timeless u) }
    ensures legal { (code : Code) (s : State) (e : Entry) → ¬ IsTick e → IsLegal code s e → IsLegal code (timeless s) e }
{}

/// Whatever is legal in the state without time, and reads no clock, is legal in the state itself, after at most one Tick, and
/// leaves the same but for time.
pub fn time_can_be_given()
    ensures { (code : Code) (s w : State) (e : Entry) → LeadsTimeless code (timeless s) e w → (u : State) × Run code s (with_its_tick s e) u × (timeless u ≡ w) }
{}

/// A run has ended in a state exactly where it has in the state without time, and in the same way. Where nobody sleeps there
/// is no work in the one exactly where there is none in the other.
pub fn endings_need_no_time()
    ensures done { (s : State) → IsDone s ↔ IsDone (timeless s) }
    ensures uncaught { (s : State) → IsUncaught s ↔ IsUncaught (timeless s) }
    ensures deadlock { (code : Code) (s : State) → IsDeadlock code s ↔ IsDeadlock code (timeless s) }
    ensures idle { (code : Code) (s : State) → sleepers_of s.blocked ≡ [] → IsIdle code s ↔ IsIdle code (timeless s) }
{}

/// Each timeless run is a run with at most one Tick before each Wake, to the due of the sleeper that wakes. Where no timeless
/// run from the state without time meets a legal reading of the clock, each run is a timeless run without its Ticks.
pub fn time_decides_nothing()
    ensures forth { (code : Code) (s u : State) (es : List Entry) → NeverReadsClock code (timeless s) → Run code s es u → TimelessRun code (timeless s) (without_ticks es) (timeless u) }
    ensures back { (code : Code) (s w : State) (es : List Entry) → TimelessRun code (timeless s) es w → (fs : List Entry) × (u : State) × Run code s fs u × (timeless u ≡ w) × (without_ticks fs ≡ es) × WithTheirTicks code s es fs u }
{}
