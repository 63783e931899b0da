//! What runs of a script may come to, and whether they may go on for ever. This crate has no code: each public function with
//! an empty body carries laws as its contract, so that a caller may use them and a reader find them.
//!
//! To a contract an outcome is what a run printed and how it ended of itself (`specs/Outcomes.antt`), and a timing is a choice
//! of the clock, which says where Ticks may stand (`specs/Timings.antt`). A timeless run is that of `timing`.
//!
//! Its promise: what timeless runs from the first state of a script come to is what its runs in real timing come to, by
//! histories that keep the law of the clock; a run that comes back to its state goes on for ever, and a rank that falls at
//! each entry bounds every run. Which entries need not be tried is left to `reduction`, and what is legal in a state that
//! somebody has in hand to `offers`.
//!
//! Parts with a head of their own: `timing`, time taken away from the rules of a run; `reduction`, which entries a
//! search over all schedules may take at once; `offers`, of each kind of entry, which may be legal in a state with
//! slots.
#![tactic(auto)]

pub mod offers;
pub mod reduction;
pub mod timing;

ghost use Rattle.std.specs.Prelude.{◌≡◌, ◌≤◌, ◌<◌, ℕ, List, ◌∷◌, length, Some};
ghost use Rattle.std.specs.declared.cmp.Ordering.TheVariants.{Equal};
ghost use Rattle.std.specs.Cmp.{IsTotalOrder};
ghost use Rattle.hs_base.specs.declared.clock_choice.ClockChoice.{ClockChoice};
ghost use Rattle.hs_base.specs.declared.clock_choice.ClockChoice.TheVariants.{Real, Virtual};
ghost use Rattle.hs_rules.specs.declared.entry.Entry.{Entry};
ghost use Rattle.rules_expansion.specs.trees.Programs.{Fn};
ghost use Rattle.rules_meaning.specs.CoreMeaning.{Code, code_of};
ghost use Rattle.hs_rules.specs.State.{State};
ghost use Rattle.hs_rules.specs.Runs.{Run, first_of, IsRun};
ghost use Rattle.hs_laws.specs.ClockLaw.{ClockKept};
ghost use Rattle.hs_laws.specs.HistoryEndings.{HasEnding};
ghost use Rattle.outcome_laws.specs.timing.WithoutTime.{timeless, TimelessRun, NeverReadsClock, without_ticks};
ghost use Rattle.outcome_laws.specs.Timings.{TimedRun, IsEndlessFrom, IsEndless};
ghost use Rattle.outcome_laws.specs.Outcomes.{Outcome, ending_of, ReachesTimeless, Reaches, HasOutcome, IsOutcomeOf, outcome_cmp};
ghost use Rattle.outcome_laws.specs.BoundLaws.{TimelessRunsHaveWitnesses, RanksBoundTimelessRuns, RanksBoundTimedRuns};

/// In real timing each run is of the timing, and a run of any timing is a run.
pub fn timed_runs_are_runs()
    ensures real { (code : Code) (es : List Entry) (s u : State) → Run code s es u → TimedRun Real code s es u }
    ensures run { (clock : ClockChoice) (code : Code) (es : List Entry) (s u : State) → TimedRun clock code s es u → Run code s es u }
{}

/// A history has at most one outcome, and its ending is that of the history, whatever the fuel.
pub fn outcomes_are_one()
    ensures one { (ds : List Fn) (es : List Entry) (o p : Outcome) → HasOutcome ds es o → HasOutcome ds es p → o ≡ p }
    ensures ending { (ds : List Fn) (es : List Entry) (o : Outcome) (fuel : ℕ) → HasOutcome ds es o → HasEnding (ending_of o.end) ds es fuel }
{}

/// The order of outcomes is total, and only equal ones have one place in it.
pub fn outcomes_are_ordered()
    ensures total { IsTotalOrder outcome_cmp }
    ensures same { (o p : Outcome) → outcome_cmp o p ≡ Equal → o ≡ p }
{}

/// Each timeless run from the first state of a script is a history of it with Ticks between its entries, which keeps the law
/// of the clock with no early Tick; and so does each run in virtual timing.
pub fn witnesses_keep_the_clock()
    ensures real_timing { TimelessRunsHaveWitnesses }
    ensures virtual_timing { (ds : List Fn) (s u : State) (es : List Entry) → first_of ds ≡ Some s → TimedRun Virtual (code_of ds) s es u → ClockKept ds es 0 }
{}

/// What timeless runs from the state without time come to, runs in real timing come to, and where no timeless run meets a
/// legal reading of the clock they come to nothing else.
pub fn outcomes_need_no_time()
    ensures sound { (code : Code) (s : State) (o : Outcome) → ReachesTimeless code (timeless s) o → Reaches Real code s o }
    ensures complete { (code : Code) (s : State) (o : Outcome) → NeverReadsClock code (timeless s) → Reaches Real code s o → ReachesTimeless code (timeless s) o }
{}

/// So it is of a script, whose outcomes are those of its histories.
pub fn scripts_need_no_time()
    ensures histories { (clock : ClockChoice) (ds : List Fn) (o : Outcome) → IsOutcomeOf clock ds o → (es : List Entry) × HasOutcome ds es o }
    ensures sound { (ds : List Fn) (s : State) (o : Outcome) → first_of ds ≡ Some s → ReachesTimeless (code_of ds) (timeless s) o → IsOutcomeOf Real ds o }
    ensures complete { (ds : List Fn) (s : State) (o : Outcome) → first_of ds ≡ Some s → NeverReadsClock (code_of ds) (timeless s) → IsOutcomeOf Real ds o → ReachesTimeless (code_of ds) (timeless s) o }
{}

/// Where a run comes back to a state by at least one entry other than a Tick, runs go on for ever: a timeless run in real
/// timing, and a run of any timing in that timing. A script that is endless has histories of any length.
pub fn rounds_go_on()
    ensures timeless { (code : Code) (s w : State) (es round : List Entry) (e : Entry) → TimelessRun code (timeless s) es w → TimelessRun code w (e ∷ round) w → IsEndlessFrom Real code s }
    ensures timed { (clock : ClockChoice) (code : Code) (s w : State) (es round : List Entry) → TimedRun clock code s es w → TimedRun clock code w round w → 0 < length (without_ticks round) → IsEndlessFrom clock code s }
    ensures histories { (clock : ClockChoice) (ds : List Fn) → IsEndless clock ds → (n : ℕ) → (es : List Entry) × (u : State) × IsRun ds es u × (n < length (without_ticks es)) }
{}

/// Where each entry from a state of a closed set lowers a rank, or is a Tick and doesn't raise it, no run has more entries
/// other than Ticks than the rank of its first state: so it is of timeless runs and real timing, and of the runs of any
/// timing. A script whose runs have a bound isn't endless.
pub fn ranks_bound_runs()
    ensures timeless { RanksBoundTimelessRuns }
    ensures timed { RanksBoundTimedRuns }
    ensures ends { (clock : ClockChoice) (ds : List Fn) (m : ℕ) → ((s u : State) (es : List Entry) → first_of ds ≡ Some s → TimedRun clock (code_of ds) s es u → length (without_ticks es) ≤ m) → ¬ IsEndless clock ds }
{}
