//! Time taken away from states with slots. This module has no code: each public function with an empty body carries laws as
//! its contract, so that a caller may use them and a reader find them.
//!
//! To a contract `untimed x` is the state with slots x with its clock at 0 and every sleeper due at 0
//! (`specs/time/WithoutTime.antt`), and `next` of `slot_states::entering` is the state that an entry leaves.
//!
//! Its promise: what stands for a state of the rules stands, without time, for that state without time; and but for Ticks and
//! readings of the clock whatever has a next state has one without time, and the other way round after at most one Tick, and
//! the two are the same but for time. So whoever computes `next` without time misses nothing but what a script reads off the
//! clock. That the rules themselves need no time is left to `outcome_laws::timing`.

ghost use Rattle.std.specs.Prelude.{◌≡◌, ◌↔◌, ℕ, List, Some};
ghost use Rattle.hs_rules.specs.declared.entry.Entry.{Entry};
ghost use Rattle.rules_expansion.specs.trees.Programs.{Fn};
ghost use Rattle.rules_code.specs.CodeTrees.{SlottedFunction};
ghost use Rattle.hs_rules.specs.State.{State};
ghost use Rattle.hs_rules.specs.Endings.{IsTick};
ghost use Rattle.outcome_laws.specs.timing.WithoutTime as named;
ghost use Rattle.outcome_laws.specs.timing.WithoutTime.{timeless};
ghost use Rattle.slot_states.specs.SlotStates.{SlotState, ticks, Represents};
ghost use Rattle.slot_states.specs.Printing.{output_by, errors_by};
ghost use Rattle.slot_states.specs.entering.Entering.{next};
ghost use Rattle.search_laws.specs.time.WithoutTime.{untimed, ReadsClock};
ghost use Rattle.search_laws.specs.time.NextLaws.{NextIsGivenTime, OneTickMakesDue};

/// Without time a state stands for the state of the rules without time, and an entry reads the clock in the one exactly where
/// it does in the other.
pub fn untimed_states_stand()
    ensures stands { (ds : List Fn) (x : SlotState) (s : State) → Represents ds x s → Represents ds (untimed x) (timeless s) }
    ensures reads { (ds : List Fn) (x : SlotState) (s : State) → Represents ds x s → (e : Entry) → ReadsClock x e ↔ named.ReadsClock s e }
{}

/// A Tick changes nothing but time, and without time nothing is left to take away. What reads the clock and what is printed
/// is the same without time.
pub fn time_is_taken_away()
    ensures tick { (x : SlotState) (at : ℕ) → untimed (ticks at x) ≡ untimed x }
    ensures twice { (x : SlotState) → untimed (untimed x) ≡ untimed x }
    ensures reads { (x : SlotState) (e : Entry) → ReadsClock (untimed x) e ↔ ReadsClock x e }
    ensures output { (x : SlotState) (e : Entry) → output_by (untimed x) e ≡ output_by x e }
    ensures errors { (x : SlotState) (e : Entry) → errors_by (untimed x) e ≡ errors_by x e }
{}

/// Where an entry other than a Tick and a reading of the clock has a next state it has one without time, the same but for
/// time.
pub fn next_needs_no_time()
    ensures { (funs : List SlottedFunction) (x y : SlotState) (e : Entry) → next funs x e ≡ Some y → ¬ IsTick e → ¬ ReadsClock x e → (z : SlotState) × (next funs (untimed x) e ≡ Some z) × (untimed z ≡ untimed y) }
{}

/// Where such an entry has a next state without time it has one, the same but for time, in the state itself, after one Tick
/// where it wakes a sleeper that isn't due yet. That Tick goes to the time of the sleeper and has a next state.
pub fn next_can_be_given_time()
    ensures entry { NextIsGivenTime }
    ensures tick { OneTickMakesDue }
{}
