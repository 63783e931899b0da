//! When a search over all schedules of a script has found every outcome. This crate has no code: each public function with an
//! empty body carries laws as its contract, so that a caller may use them and a reader find them.
//!
//! To a contract a search keeps of each state what it shows (`specs/Shown.antt`): a state with slots, in real timing without
//! time, and both outputs. It goes on by one entry and then by eager local rules (`specs/Going.antt`), and what it has found
//! (`specs/Found.antt`) are its states by number, for each where it came from, the edges between them, and how each has ended.
//!
//! Its promise: each state to which the sources lead is one that a run of the timing comes to, of so many steps and within the
//! limits; where each entry of each state has its edge, each outcome of the script shows in some state; and what a gap is said to
//! be it is in the words of the rules. How the states are found is left to the crate that searches.
//!
//! Parts with a head of their own: `time`, time taken away from states with slots; `rests`, eager local rules of
//! states with slots, which a search may take at once; `ends`, whether every schedule ends, read off what a search
//! has found.
#![tactic(auto)]

pub mod ends;
pub mod rests;
pub mod time;

ghost use Rattle.std.specs.Prelude.{◌≡◌, ◌≤◌, List, None};
ghost use Rattle.std.specs.List.{Contains};
ghost use Rattle.hs_base.specs.declared.clock_choice.ClockChoice.{ClockChoice};
ghost use Rattle.hs_base.specs.declared.limits.Limits.{Limits};
ghost use Rattle.hs_base.specs.declared.tree.script.Script.{Script};
ghost use Rattle.hs_rules.specs.declared.entry.Entry.{Entry};
ghost use Rattle.hs_rules.specs.declared.entry.LimitKind.TheVariants as limit;
ghost use Rattle.rules_expansion.specs.trees.Programs.{script_of};
ghost use Rattle.rules_typing.specs.TypingScripts.{Accepted};
ghost use Rattle.rules_code.specs.CodeTrees.{SlottedFunction};
ghost use Rattle.slot_states.specs.SlotStates.{SlotState};
ghost use Rattle.slot_states.specs.Resting.{used};
ghost use Rattle.search_laws.specs.rests.Rests.{EagerMove};
ghost use Rattle.slot_states.specs.entering.Entering.{next};
ghost use Rattle.search_laws.specs.Shown.{FitsIn, IsFirst, Uses};
ghost use Rattle.search_laws.specs.Going.{IsStill};
ghost use Rattle.search_laws.specs.Found.{candidates};
ghost use Rattle.search_laws.specs.SearchLaws.{StatesAreThoseOfRuns, SourcesComeToStatesOfRuns, OutcomesAreSeen, EndsAreRight, EndsAreAll, ReadingsAreThoseOfRuns, UsesAreThoseOfRuns, CandidatesAreEnough};

/// Where the sources lead to the states of a search, each stands for the state that some run of the timing leaves, of as many
/// steps as its source says, within the limits; and so does whatever a source comes to.
pub fn states_are_those_of_runs()
    ensures states { StatesAreThoseOfRuns }
    ensures comes { SourcesComeToStatesOfRuns }
{}

/// No eager local rule exceeds a limit, where it leaves no more frames than may be.
pub fn eager_rules_stay_within()
    ensures { (limits : Limits) (funs : List SlottedFunction) (x m : SlotState) → EagerMove funs x m → used limit.Frames m ≤ limits.frames → FitsIn limits x → FitsIn limits m }
{}

/// Where each entry that may be taken in each state has its edge, and the edges lead where they say, each outcome of the script
/// is that of some state.
pub fn outcomes_are_seen()
    ensures { OutcomesAreSeen }
{}

/// How a state of a search has ended is how a run that comes to it has, in both directions; and by main alone in one.
pub fn ends_are_those_of_runs()
    ensures right { EndsAreRight }
    ensures all { EndsAreAll }
{}

/// What has a next state and reads the clock in real timing is legal, and reads it, in each state of a run that is stood for.
/// What an entry leaves, whatever the limits, uses as much as the last state of some run of the timing, and so does the first
/// state.
pub fn gaps_are_those_of_runs()
    ensures reads { ReadingsAreThoseOfRuns }
    ensures left { UsesAreThoseOfRuns }
    ensures first { (clock : ClockChoice) (script : Script) → Accepted script → (x : SlotState) → IsFirst (script_of script) x → Uses clock (script_of script) 0 x }
{}

/// Whatever but a Tick has a next state, and is a Local of no more than one step, is among the candidates. So where none of them
/// has a next state, no entry but a Tick has; and where each that has one has its edge, and so a Tick that may be taken, the
/// search has gone on from the state.
pub fn candidates_are_enough()
    ensures still { (funs : List SlottedFunction) (x : SlotState) → ((e : Entry) → Contains (candidates x) e → next funs x e ≡ None) → IsStill funs x }
    ensures gone { CandidatesAreEnough }
{}
